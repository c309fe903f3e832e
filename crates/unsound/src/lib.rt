// Where what is lent is unsound: for those whose step was answered 1. docs/FAULTS.md has the numbers.
#![tactic(auto)]

ghost use Rattle.std.specs.Prelude.{◌≡◌};
ghost use Rattle.scan.specs.Sound.{SoundTable};
ghost use Rattle.unsound.specs.Unsound.{fault_beyond, fault_of_books, fault_in};

use faults::Fault;

// Where provider list or books are unsound.
pub fn books(providers: &[u8], books: &[u8]) -> Fault
    ensures { result ≡ fault_of_books providers.now books.now }
{
    faults::tell(bookfaults::fault(providers, books))
}

// The same of a table whose rows are sound, with n used ones: 32 where provider list or books are unsound, and then its lines.
fn beyond(table: &[u8], n: usize, providers: &[u8], books: &[u8]) -> Option<Fault>
    requires { SoundTable table.now n }
    ensures { result ≡ fault_beyond table.now providers.now books.now }
{
    if checks::books_check(providers, books) != 0 {
        return Some(faults::whole(32));
    }
    if lines::sound(books, table, n) {
        return None;
    }
    linefaults::fault(books, table, n)
}

// Where a table is unsound: its rows first. A sound table is read once.
pub fn table(table: &[u8], providers: &[u8], books: &[u8]) -> Fault
    ensures { result ≡ fault_in table.now providers.now books.now }
{
    match scan::verdict(table) {
        Some(used) => faults::tell(beyond(table, used, providers, books)),
        None => faults::tell(tablefaults::fault(table)),
    }
}
