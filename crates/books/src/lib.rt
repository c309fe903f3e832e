// The books as bytes, and what they say of codes and pairs. They are only read. [B6, D6]
#![tactic(auto)]

ghost use Rattle.std.specs.Prelude.{◌≡◌, length, true, ◌<◌};
ghost use Rattle.model.specs.Numbers.{code_of};
ghost use Rattle.model.specs.declared.Marks.{Marks};
ghost use Rattle.model.specs.Books.{owner_of, partner_of, sound_splits};
ghost use Rattle.books.specs.Packed.{book_bytes, splits_of, decode_books};
ghost use Rattle.books.specs.Line.{Named};

use model::Tn;

pub const BOOK_BYTES: usize = 8712;
// Codes, and filters: as many places each.
pub const ROW_PLACES: usize = 1024;

pub const CODES_AT: usize = 8;

pub const FILTERS_AT: usize = 4104;

pub const SPLITS_AT: usize = 8200;

pub const SPLIT_PLACES: usize = 64;

// The code of a TN: its first six digits. An LRN has none here. [N2, N3]
pub fn code_of(tn: Tn) -> u64
    ensures { result ≡ code_of tn }
{
    tn.0 / 10000
}

// The owner of a code, or 0 where it is not listed: a free place says 0.
pub fn owner(books: &[u8], code: u64) -> u8
    requires { length books.now ≡ book_bytes }
    ensures { (m : Marks) → result ≡ owner_of (decode_books m books.now) code }
{
    for i in 0..ROW_PLACES {
        let w = octets::u32_at(books, CODES_AT + 4 * i);
        if (w == 0) | (w / 64 == code) {
            return (w % 64) as u8;
        }
    }
    0
}

// The other code of the pair that a code stands in, or 0: the search stops at the first row that decides. [D6]
pub fn partner(books: &[u8], code: u64) -> u64
    requires { length books.now ≡ book_bytes }
    ensures { (m : Marks) → result ≡ partner_of (decode_books m books.now) code }
{
    for i in 0..SPLIT_PLACES {
        let w = octets::u64_at(books, SPLITS_AT + 8 * i);
        if (w == 0) | (w / 4294967296 == code) {
            return w % 4294967296;
        }
        if w % 4294967296 == code {
            return w / 4294967296;
        }
    }
    0
}

// The names of a line: the smaller TN and the larger, or one TN twice where its code stands in no pair.
#[derive(Clone, Copy)]
pub struct Names {
    pub low: Tn,
    pub high: Tn,
}

// The names of the line that a TN names. [A3.1]
pub fn line_names(books: &[u8], tn: Tn) -> Names
    requires books_len { length books.now ≡ book_bytes }
    requires books_value { (sound_splits (splits_of books.now) ≡ true) × (tn.0 < 17179869184) }
    ensures { Named (splits_of books.now) tn.0 result }
{
    let code = code_of(tn);
    let other = partner(books, code);
    if other == 0 {
        return Names { low: tn, high: tn };
    }
    let twin = Tn(other * 10000 + tn.0 % 10000);
    if twin.0 < tn.0 {
        return Names {
            low: twin,
            high: tn,
        };
    }
    Names {
        low: tn,
        high: twin,
    }
}
