// Codes, filters and pairs, place after place. [B2, B3, B4]
ghost use Rattle.std.specs.Prelude.{◌≡◌, ◌<◌, ◌≤◌, length, None};
ghost use Rattle.faults.specs.Faults.{first_broken};
ghost use Rattle.books.specs.Packed.{book_bytes, split_places, split_place};
ghost use Rattle.bookfaults.specs.Clauses.{here, code_clauses, filter_clauses, meets, pair_clauses, place_in, places_of, last_at, met_by};
ghost use Rattle.bookfaults.specs.Clauses.{place_found, list_fault};

use faults::{Fault, Found};
use model::{Marks, limit};
use places::entries;

// The largest provider, as a word.
const PROVIDERS: u64 = limit::PROVIDERS as u64;

fn here(marks: Marks, p: u64) -> bool
    ensures { result ≡ here marks p }
{
    if PROVIDERS < p {
        return false;
    }
    let listed = systems::has(marks.present, p as u8);
    (1 <= p) & (p <= PROVIDERS) & listed
}

// Clauses 5 to 8, of a code's place i.
fn code(marks: Marks, i: u64, last: u64, w: u64) -> Option<Found>
    ensures { result ≡ first_broken (code_clauses marks i last w) None }
{
    let f = faults::unless(!((0 < i) & (w / 64 <= last / 64)), 8, i, None);
    let f = faults::unless(here(marks, w % 64), 7, 0, f);
    let f = faults::unless(entries::is_code(w / 64), 6, 0, f);
    faults::unless(!((0 < i) & (last == 0)), 5, i, f)
}

// Clauses 9 to 12, of a filter's.
fn filter(marks: Marks, i: u64, last: u64, w: u64) -> Option<Found>
    ensures { result ≡ first_broken (filter_clauses marks i last w) None }
{
    let f = faults::unless(!((0 < i) & (w <= last)), 12, i, None);
    let f = faults::unless(entries::is_code(w % 1048576), 11, 0, f);
    let f = faults::unless(here(marks, w / 1048576), 10, 0, f);
    faults::unless(!((0 < i) & (last == 0)), 9, i, f)
}

// Whether a code of pair u is one of pair w's.
fn meets(u: u64, w: u64) -> bool
    ensures { result ≡ meets u w }
{
    let one = w / 4294967296;
    let other = w % 4294967296;
    let first = entries::has_code(one, other, u / 4294967296);
    let second = entries::has_code(one, other, u % 4294967296);
    first | second
}

// The nearest pair before place i with a code of w's, from 1; 0 where none has.
fn met(books: &[u8], i: usize, w: u64) -> u64
    requires { (length books.now ≡ book_bytes) × (i ≤ split_places) }
    ensures { result ≡ met_by (split_place books.now) i w }
{
    faults::nearest(
        i,
        |j| meets(octets::u64_at(books, books::SPLITS_AT + 8 * j), w),
    )
}

// Clauses 13 to 16, of a pair's place i; `other` is the nearest pair before with a code of its.
fn pair(other: u64, i: u64, last: u64, w: u64) -> Option<Found>
    ensures { result ≡ first_broken (pair_clauses other i last w) None }
{
    let one = w / 4294967296;
    let two = w % 4294967296;
    let first = entries::is_code(one);
    let second = entries::is_code(two);
    let f = faults::once(16, other, None);
    let f = faults::unless(one != two, 15, 0, f);
    let f = faults::unless(first & second, 14, 0, f);
    faults::unless(!((0 < i) & (last == 0)), 13, i, f)
}

// The three lists of the books.
#[derive(Clone, Copy)]
pub enum Listing {
    Codes,
    Filters,
    Pairs,
}

impl Listing {
    fn places(self) -> usize
        ensures { result ≡ places_of self }
    {
        match self {
            Listing::Codes | Listing::Filters => books::ROW_PLACES,
            Listing::Pairs => books::SPLIT_PLACES,
        }
    }

    fn place(self, books: &[u8], i: usize) -> u64
        requires { (length books.now ≡ book_bytes) × (i < places_of self) }
        ensures { result ≡ place_in self books.now i }
    {
        match self {
            Listing::Codes => octets::u32_at(books, books::CODES_AT + 4 * i),
            Listing::Filters => octets::u32_at(books, books::FILTERS_AT + 4 * i),
            Listing::Pairs => octets::u64_at(books, books::SPLITS_AT + 8 * i),
        }
    }

    // The place before place i, or 0.
    fn last(self, books: &[u8], i: usize) -> u64
        requires { (length books.now ≡ book_bytes) × (i < places_of self) }
        ensures { result ≡ last_at (place_in self books.now) i }
    {
        if i == 0 {
            return 0;
        }
        self.place(books, i - 1)
    }

    // What place i breaks; a free place nothing.
    fn found(self, marks: Marks, books: &[u8], i: usize) -> Option<Found>
        requires { (length books.now ≡ book_bytes) × (i < places_of self) }
        ensures { result ≡ place_found self marks (place_in self books.now) i }
    {
        let w = self.place(books, i);
        if w == 0 {
            return None;
        }
        let last = self.last(books, i);
        match self {
            Listing::Codes => code(marks, i as u64, last, w),
            Listing::Filters => filter(marks, i as u64, last, w),
            Listing::Pairs => pair(met(books, i, w), i as u64, last, w),
        }
    }

    // The first place that breaks a clause.
    pub fn fault(self, marks: Marks, books: &[u8]) -> Option<Fault>
        requires { length books.now ≡ book_bytes }
        ensures { result ≡ list_fault self marks books.now }
    {
        faults::first(self.places(), |i| self.found(marks, books, i))
    }
}
