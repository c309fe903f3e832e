// What is lent to a call, checked: before any event, and for those who only ask.
#![tactic(auto)]

ghost use Rattle.std.specs.Prelude.{◌≡◌, map};
ghost use Rattle.providers.specs.Providers.{listed, entry_of};
ghost use Rattle.checks.specs.Checks.{fitting, soundness_lent, checked_table, checked_books};

use model::{Marks, limit};
use outcomes::Answer;

// R is 0 to 7, and the tray has its places.
pub fn fit(most: u8, places: usize) -> bool
    ensures { result ≡ fitting most places }
{
    (most <= limit::RETRIES) & (limit::PLACES <= places)
}

// How many rows are used of a table that is sound with the provider list and the books that it is lent with: its lines need sound books.
pub fn lent(marks: Option<Marks>, books: &[u8], table: &[u8]) -> Option<usize>
    ensures { result ≡ soundness_lent marks books.now table.now }
{
    let used = scan::verdict(table)?;
    soundbooks::kept(marks, books)?;
    if lines::sound(books, table, used) {
        Some(used)
    } else {
        None
    }
}

// The same as an answer.
// Kept: the outcome is a number, which lupinenblatt_table_check answers to C.
pub fn table_check(table: &[u8], providers: &[u8], books: &[u8]) -> Answer
    ensures { result ≡ checked_table
        (soundness_lent (listed (map entry_of providers.now)) books.now table.now) }
{
    match lent(providers::marks_of_bytes(providers), books, table) {
        Some(used) => Answer {
            outcome: 0,
            count: used as u64,
        },
        None => Answer {
            outcome: 1,
            count: 0,
        },
    }
}

// Whether bytes are a sound provider list and sound books: 0 or 1.
// Kept: the number is what lupinenblatt_books_check answers to C.
#[tactic(auto, using(crate::proofs::Lending::kept_says), unfolding(crate::specs::Checks::checked_books))]
pub fn books_check(providers: &[u8], books: &[u8]) -> u8
    ensures { result ≡ checked_books providers.now books.now }
{
    let marks = providers::marks_of_bytes(providers);
    if soundbooks::kept(marks, books).is_some() {
        0
    } else {
        1
    }
}
