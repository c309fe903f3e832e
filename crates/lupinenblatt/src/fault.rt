// Where what is lent is unsound.
ghost use Rattle.std.specs.Prelude.{◌≡◌};
ghost use Rattle.unsound.specs.Unsound.{fault_of_books, fault_in};

use faults::Fault;

// Where a table is unsound, or the provider list or the books that it is lent with.
#[unsafe(no_mangle)]
pub extern "C" fn lupinenblatt_table_fault(table: &[u8], providers: &[u8], books: &[u8]) -> Fault
    ensures { result ≡ fault_in table.now providers.now books.now }
{
    unsound::table(table, providers, books)
}

// Where a provider list or books are unsound.
#[unsafe(no_mangle)]
pub extern "C" fn lupinenblatt_books_fault(providers: &[u8], books: &[u8]) -> Fault
    ensures { result ≡ fault_of_books providers.now books.now }
{
    unsound::books(providers, books)
}
