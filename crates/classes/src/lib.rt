// Each provider's class for a TN, as its number in a byte: for those who ask why a system was skipped. [A8.1]
#![tactic(auto)]

ghost use Rattle.std.specs.Prelude.{◌≡◌, ◌&&◌, eqb, length, map};
ghost use Rattle.model.specs.Numbers.{ten_digits, last_provider};
ghost use Rattle.model.specs.Selection.{class_number};
ghost use Rattle.providers.specs.Providers.{listed, entry_of};
ghost use Rattle.soundbooks.specs.Sound.{kept_by};
ghost use Rattle.selection.specs.Classes.{class_in};
ghost use Rattle.classes.specs.Classes.{numbers_of, Classified};

use model::{Class, Marks, Tn, limit};
use selection::Classes;

// As many places as providers.
const PLACES: usize = limit::PROVIDERS as usize;

// The number of a class. [H7]
fn number(c: Class) -> u8
    ensures { result ≡ class_number c }
{
    c as u8
}

// Provider p's number to place p - 1, for all of them.
fn store(c: Classes, out: &mut [u8])
    requires { length out.old ≡ last_provider }
    ensures { out.new ≡ numbers_of (class_in c) last_provider }
{
    for (i, place) in out.iter_mut().enumerate() {
        *place = number(selection::class_of(c, i as u8 + 1));
    }
}

// Whether it is a TN, with as many places as providers.
fn formed(tn: Tn, places: usize) -> bool
    ensures { result ≡ (ten_digits tn.0 && eqb places last_provider) }
{
    kinds::is_tn(tn) & (places == PLACES)
}

// The marks of a provider list that is sound, beside sound books.
fn lists(providers: &[u8], books: &[u8]) -> Option<Marks>
    ensures { result ≡ kept_by (listed (map entry_of providers.now)) books.now }
{
    soundbooks::kept(providers::marks_of_bytes(providers), books)
}

// The classes for a TN to exactly 63 places, and 0; 1 where provider list or books are unsound, 2 where it is no TN or the places are not
// 63, and nothing is written.
// Kept: the numbers are those that lupinenblatt_selection answers to C.
pub fn write(providers: &[u8], books: &[u8], tn: u64, out: &mut [u8]) -> u8
    ensures { Classified providers.now books.now tn out.old out.new result }
{
    let Some(marks) = lists(providers, books) else {
        return 1;
    };
    let asked = Tn(tn);
    if !formed(asked, out.len()) {
        return 2;
    }
    let c = selection::classify(marks, books, books::code_of(asked));
    store(c, out);
    0
}
