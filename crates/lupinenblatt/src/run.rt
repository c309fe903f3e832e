// Many events at once.
ghost use Rattle.std.specs.Prelude.{map};
ghost use Rattle.providers.specs.Providers.{listed, entry_of};
ghost use Rattle.batch.specs.Batch.{RunOn};

use crate::MOST_RETRIES;
use batch::Ran;

// Event records on a table, as many steps as repeated calls would make.
#[unsafe(no_mangle)]
pub extern "C" fn lupinenblatt_run(
    table: &mut [u8],
    providers: &[u8],
    books: &[u8],
    retries: u64,
    events: &[u8],
    tray: &mut [u8],
    outcomes: &mut [u8],
) -> Ran
    ensures { RunOn (listed (map entry_of providers.now)) books.now retries events.now
        table.old tray.old outcomes.old table.new tray.new outcomes.new result }
{
    if MOST_RETRIES < retries {
        return Ran {
            outcome: 1,
            events: 0,
            messages: 0,
        };
    }
    batch::run(
        table,
        providers,
        books,
        retries as u8,
        events,
        tray,
        outcomes,
    )
}
