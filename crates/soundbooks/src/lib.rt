// Whether bytes are sound books: one pass over each list of places. [B1, B2, B3, B4]
#![tactic(auto)]

ghost use Rattle.std.specs.Prelude.{◌≡◌, ◌+◌, ◌*◌, ◌≤◌, eqb, length, Bool};
ghost use Rattle.model.specs.declared.Marks.{Marks};
ghost use Rattle.books.specs.Packed.{book_bytes, row_places, split_places, place_of, head_of, split_place, sound_bytes};
ghost use Rattle.books.specs.Places.{rest_of};
ghost use Rattle.soundbooks.specs.Scan.{scan};
ghost use Rattle.soundbooks.specs.Sound.{row_test, RowsBy, apart_from, good_split, split_test, kept_by};

use model::Marks;
use places::{blanks, entries};

// Whether neither code stands in a pair from place i on.
fn apart(books: &[u8], one: u64, other: u64, i: usize) -> bool
    requires { length books.now ≡ book_bytes }
    ensures { result ≡ apart_from one other (rest_of (split_place books.now) split_places i) }
{
    for k in i..books::SPLIT_PLACES {
        let a = octets::u32_at(books, books::SPLITS_AT + 8 * k);
        let b = octets::u32_at(books, books::SPLITS_AT + 8 * k + 4);
        if (a == 0) & (b == 0) {
            return true;
        }
        if entries::has_code(a, b, one) {
            return false;
        }
        if entries::has_code(a, b, other) {
            return false;
        }
    }
    true
}

// Pair w, at place i - 1. [B4]
fn good_split(books: &[u8], w: u64, i: usize) -> bool
    requires { length books.now ≡ book_bytes }
    ensures { result ≡ good_split w (rest_of (split_place books.now) split_places i) }
{
    let one = w / 4294967296;
    let other = w % 4294967296;
    let clear = apart(books, one, other, i);
    let known = entries::is_code(one);
    let known_other = entries::is_code(other);
    (one != other) & clear & (known & known_other)
}

// One pass over the codes or the filters: places of four bytes from at, each good behind the one before it.
fn sound_rows<F: Fn(u64, u64) -> bool>(books: &[u8], at: usize, good: F) -> bool
    requires { (at + 4 * row_places + 4 ≤ length books.now) × F.IsAlwaysCallable good }
    ensures { (f : Bool) (m : Marks) → RowsBy (F.post good) f m → result ≡ scan (row_test f m) (place_of 4 at books.now) row_places 0 0 }
{
    let mut last: u64 = 0;
    let mut w = octets::u32_at(books, at);
    let mut i: usize = 0;
    // Kept: a place is tested one turn after it is read, so that the compiler reads it with one load.
    while i < books::ROW_PLACES {
        if w == 0 {
            return blanks::free_rows(books, at, i + 1);
        }
        if !good(last, w) {
            return false;
        }
        last = w;
        i += 1;
        w = octets::u32_at(books, at + 4 * i);
    }
    true
}

// One pass over the pairs, each against those behind it.
fn sound_splits(books: &[u8]) -> bool
    requires { length books.now ≡ book_bytes }
    ensures { result ≡ scan split_test (split_place books.now) split_places 0 0 }
{
    for i in 0..books::SPLIT_PLACES {
        let w = octets::u64_at(books, books::SPLITS_AT + 8 * i);
        if w == 0 {
            return blanks::free(books, books::SPLITS_AT, books::SPLIT_PLACES, i + 1);
        }
        if !good_split(books, w, i + 1) {
            return false;
        }
    }
    true
}

// Whether the eight bytes at the head are free.
fn head_free(books: &[u8]) -> bool
    requires { length books.now ≡ book_bytes }
    ensures { result ≡ eqb (head_of books.now) 0 }
{
    octets::u64_at(books, 0) == 0
}

// Whether the marks and the bytes are sound books, for any of them. [B1, B2, B3, B4]
pub fn sound(marks: Marks, books: &[u8]) -> bool
    ensures { result ≡ sound_bytes marks books.now }
{
    if books.len() != books::BOOK_BYTES {
        return false;
    }
    if !head_free(books) {
        return false;
    }
    if !providers::sound(marks) {
        return false;
    }
    if !sound_rows(
        books,
        books::CODES_AT,
        |last, w| entries::good_code(marks, last, w),
    ) {
        return false;
    }
    if !sound_rows(
        books,
        books::FILTERS_AT,
        |last, w| entries::good_filter(marks, last, w),
    ) {
        return false;
    }
    sound_splits(books)
}

// The marks of a provider list that is sound, where the bytes are sound books with them.
pub fn kept(marks: Option<Marks>, books: &[u8]) -> Option<Marks>
    ensures { result ≡ kept_by marks books.now }
{
    let marks = marks?;
    if sound(marks, books) {
        Some(marks)
    } else {
        None
    }
}
