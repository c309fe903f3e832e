// The step, and the checks of what it is lent.
ghost use Rattle.std.specs.Prelude.{◌≡◌, map};
ghost use Rattle.providers.specs.Providers.{listed, entry_of};
ghost use Rattle.engine.specs.Step.{Stepped};
ghost use Rattle.checks.specs.Checks.{soundness_lent, checked_table, checked_books};
ghost use Rattle.lupinenblatt.specs.Default.{default_retries};

use crate::MOST_RETRIES;
use outcomes::Answer;

const DEFAULT_RETRIES: u8 = 3;

// One event on a table.
#[unsafe(no_mangle)]
pub extern "C" fn lupinenblatt_step(
    table: &mut [u8],
    providers: &[u8],
    books: &[u8],
    retries: u64,
    event: &[u8],
    tray: &mut [u8],
) -> Answer
    ensures { Stepped (listed (map entry_of providers.now)) books.now retries event.now
        table.old tray.old table.new tray.new result }
{
    if MOST_RETRIES < retries {
        return Answer {
            outcome: 1,
            count: 0,
        };
    }
    engine::step::step(table, providers, books, retries as u8, event, tray)
}

// The same without R. [A9.1]
#[unsafe(no_mangle)]
pub extern "C" fn lupinenblatt_step_default(
    table: &mut [u8],
    providers: &[u8],
    books: &[u8],
    event: &[u8],
    tray: &mut [u8],
) -> Answer
    ensures { Stepped (listed (map entry_of providers.now)) books.now default_retries event.now
        table.old tray.old table.new tray.new result }
{
    engine::step::step(table, providers, books, DEFAULT_RETRIES, event, tray)
}

// Whether bytes are a sound table with the provider list and the books that it is lent with, and how many of its rows are used. [A3.5]
#[unsafe(no_mangle)]
pub extern "C" fn lupinenblatt_table_check(table: &[u8], providers: &[u8], books: &[u8]) -> Answer
    ensures { result ≡ checked_table
        (soundness_lent (listed (map entry_of providers.now)) books.now table.now) }
{
    checks::table_check(table, providers, books)
}

// Whether bytes are a sound provider list and sound books.
#[unsafe(no_mangle)]
pub extern "C" fn lupinenblatt_books_check(providers: &[u8], books: &[u8]) -> u8
    ensures { result ≡ checked_books providers.now books.now }
{
    checks::books_check(providers, books)
}
