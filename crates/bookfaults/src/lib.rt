// Where provider list and books are unsound: the first place that breaks a clause, and the first clause that it breaks. docs/FAULTS.md has
// the numbers.
#![tactic(auto)]

ghost use Rattle.std.specs.Prelude.{◌≡◌};
ghost use Rattle.bookfaults.specs.Clauses.{bytes_fault, books_fault};

use crate::lists::Listing;
use faults::Fault;
use model::Marks;

pub mod lists;
pub mod marks;

// Length and head of the books, and then codes, filters and pairs.
fn bytes(marks: Marks, books: &[u8]) -> Option<Fault>
    ensures { result ≡ bytes_fault marks books.now }
{
    if books.len() != books::BOOK_BYTES {
        return Some(faults::whole(3));
    }
    if octets::u64_at(books, 0) != 0 {
        return Some(faults::whole(4));
    }
    let codes = Listing::Codes.fault(marks, books);
    let filters = Listing::Filters.fault(marks, books);
    let pairs = Listing::Pairs.fault(marks, books);
    codes.or(filters.or(pairs))
}

// Where any bytes are no sound provider list, or no sound books.
pub fn fault(providers: &[u8], books: &[u8]) -> Option<Fault>
    ensures { result ≡ books_fault providers.now books.now }
{
    let marks = providers::marks_of_bytes(providers).unwrap_or_default();
    marks::fault(providers).or(bytes(marks, books))
}
