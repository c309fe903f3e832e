// What selection says of each provider, and so which systems a broadcast asks. Nobody else reads the filters. [D5, D6, F2, A2.1, A8.1]
#![tactic(auto)]

ghost use Rattle.std.specs.Prelude.{◌≡◌, true, ◌+◌, ◌<◌, length};
ghost use Rattle.books.specs.Packed.{book_bytes, row_places, filter_place, decode_books, sound_bytes};
ghost use Rattle.selection.specs.Pass.{smaller_of, larger_of, comes_before, most_looks, Passed};
ghost use Rattle.selection.specs.Classes.{class_in, Classed};

use model::{Class, Marks, limit};

// A filter's place is a number: its provider times this, and its code.
const CODES: u64 = 1048576;

// A look at the filter list: what stands at the place, and how many looks there have been with this one.
#[derive(Clone, Copy)]
struct Look {
    place: u64,
    looks: u64,
}

// Nothing else reads the list, and nothing looks more often than `most_looks`.
fn look_at(books: &[u8], i: usize, looks: u64) -> Look
    requires { (length books.now ≡ book_bytes) × (i < row_places) × (looks < most_looks) }
    ensures { (result.place ≡ filter_place books.now i) × (result.looks ≡ looks + 1) }
{
    Look {
        place: octets::u32_at(books, books::FILTERS_AT + 4 * i),
        looks: looks + 1,
    }
}

// Whether a place comes before the wanted one: used, and smaller.
fn before(place: u64, wanted: u64) -> bool
    ensures { result ≡ comes_before place wanted }
{
    (place != 0) & (place < wanted)
}

// Of the code and its partner the smaller, whose filter is sought first; the code where there is no partner.
fn smaller(code: u64, partner: u64) -> u64
    ensures { result ≡ smaller_of code partner }
{
    if (partner == 0) | (code < partner) {
        return code;
    }
    partner
}

// Of the two the larger, whose filter is sought last: a provider that has both is skipped. [D5]
fn larger(code: u64, partner: u64) -> u64
    ensures { result ≡ larger_of code partner }
{
    if code < partner {
        return partner;
    }
    code
}

// The set of the selected, whether the code stands in a pair, and how often the filter list was looked at.
#[derive(Clone, Copy)]
struct Pass {
    selected: u64,
    paired: bool,
    looks: u64,
}

// Those who run a Local SMS and are not skipped. The places rise, by provider and then code, and so do the wanted ones: one pass over the
// list serves all providers. A place that does not come before the wanted one decides. [D6, A2.1]
fn one_pass(marks: Marks, books: &[u8], code: u64) -> Pass
    requires { sound_bytes marks books.now ≡ true }
    ensures { Passed (decode_books marks books.now) code result }
{
    let partner = books::partner(books, code);
    let paired = partner != 0;
    let first = smaller(code, partner);
    let last = larger(code, partner);
    if last >= CODES {
        return Pass {
            selected: marks.local,
            paired,
            looks: 0,
        };
    }
    let mut selected: u64 = 0;
    let mut looks: u64 = 0;
    let mut provider: u8 = 0;
    let mut i: usize = 0;
    'providers: while provider < limit::PROVIDERS {
        provider += 1;
        if !systems::has(marks.local, provider) {
            continue 'providers;
        }
        let own = (provider as u64) * CODES;
        let until = own + last;
        let mut wanted = own + first;
        'filters: while i < books::ROW_PLACES {
            let seen = look_at(books, i, looks);
            looks = seen.looks;
            if before(seen.place, wanted) {
                i += 1;
                continue 'filters;
            }
            if seen.place != wanted {
                break 'filters;
            }
            if wanted == until {
                continue 'providers;
            }
            wanted = until;
            i += 1;
        }
        selected += systems::bit(provider);
    }
    Pass {
        selected,
        paired,
        looks,
    }
}

// Selection's answer for a code: the set of those of class selected, and what tells the classes of the others apart. A provider that runs a
// Local SMS and is not selected has a filter on the only code, or on both codes where there is a pair.
#[derive(Clone, Copy)]
pub struct Classes {
    pub selected: u64,
    pub marks: Marks,
    pub paired: bool,
}

// The class of each provider, by one pass over the filters. [A8.1]
pub fn classify(marks: Marks, books: &[u8], code: u64) -> Classes
    requires { sound_bytes marks books.now ≡ true }
    ensures { Classed (decode_books marks books.now) code result }
{
    let pass = one_pass(marks, books, code);
    Classes {
        selected: pass.selected,
        marks,
        paired: pass.paired,
    }
}

// The class that the answer has for a provider: present is asked first, then the Local SMS, then the filters. [A8.1]
pub fn class_of(c: Classes, provider: u8) -> Class
    ensures { result ≡ class_in c provider }
{
    if !systems::has(c.marks.present, provider) {
        return Class::NotPresent;
    }
    if !systems::has(c.marks.local, provider) {
        return Class::NoLocal;
    }
    if systems::has(c.selected, provider) {
        return Class::Selected;
    }
    if c.paired {
        return Class::FiltersBoth;
    }
    Class::FilterOnly
}
