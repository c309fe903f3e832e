// Why a provider's system is asked or not.
ghost use Rattle.classes.specs.Classes.{Classified};

// Each provider's class for a TN. [A8.1]
#[unsafe(no_mangle)]
pub extern "C" fn lupinenblatt_selection(
    providers: &[u8],
    books: &[u8],
    tn: u64,
    classes: &mut [u8],
) -> u8
    ensures { Classified providers.now books.now tn classes.old classes.new result }
{
    classes::write(providers, books, tn, classes)
}
