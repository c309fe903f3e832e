// The provider list, lent as records or as bytes, made two sets: who is present, and who runs a Local SMS. [B1, F7]
#![tactic(auto)]

ghost use Rattle.std.specs.Prelude.{◌≡◌, map, ◌<◌};
ghost use Rattle.model.specs.Books.{sound_marks};
ghost use Rattle.providers.specs.Providers.{listed, entry_of};
ghost use Rattle.providers.specs.Growth.{mark_of, adds_to, grown_by};

use model::{Marks, Provider, limit};

// The largest provider, as a number of places.
const PROVIDERS: usize = limit::PROVIDERS as usize;

// A record of the list, in the form in which it is lent.
trait Entry: Copy {
    ghost use Rattle.model.specs.declared.Provider.{Provider};

    ghost says: { Self → Provider };

    fn entry(self) -> Provider
        ensures { result ≡ says self };
}

impl Entry for Provider {
    ghost says = { λ x. x };

    fn entry(self) -> Provider {
        self
    }
}

// A byte of the list as a record.
impl Entry for u8 {
    ghost says = { entry_of };

    fn entry(self) -> Provider {
        Provider {
            present: (self == 1) | (self == 3),
            local: !((self == 0) | (self == 1)),
        }
    }
}

// s with the provider at place i, where on says so.
#[tactic(auto, unfolding(crate::specs::Growth::mark_of))]
fn mark(s: u64, on: bool, i: usize) -> u64
    requires { i < 63 }
    ensures { result ≡ mark_of s on i }
{
    if on {
        return s | systems::bit(i as u8 + 1);
    }
    s
}

// Whether a list that was sound so far is sound with the record at place i.
fn adds(x: Provider, i: usize) -> bool
    ensures { result ≡ adds_to x i }
{
    (i < PROVIDERS) & (x.present | !x.local)
}

// m with what the record at place i says.
fn grown(m: Marks, x: Provider, i: usize) -> Option<Marks>
    ensures { result ≡ grown_by (Some m) x i }
{
    if !adds(x, i) {
        return None;
    }
    let present = mark(m.present, x.present, i);
    let local = mark(m.local, x.local, i);
    Some(Marks { present, local })
}

// What a list of records says: its marks as sets, where it is sound.
fn marks_of<E: Entry>(list: &[E]) -> Option<Marks>
    ensures { result ≡ listed (map E.says list.now) }
{
    let mut m = Marks::default();
    for (i, e) in list.iter().enumerate() {
        m = grown(m, e.entry(), i)?;
    }
    Some(m)
}

// The list as records: place i is provider i + 1.
#[tactic(auto, using(crate::proofs::Laws::says_itself))]
pub fn marks_of_list(list: &[Provider]) -> Option<Marks>
    ensures { result ≡ listed list.now }
{
    marks_of(list)
}

// The same list as bytes.
pub fn marks_of_bytes(bytes: &[u8]) -> Option<Marks>
    ensures { result ≡ listed (map entry_of bytes.now) }
{
    marks_of(bytes)
}

// Whether the marks are sound: neither set has place 0, and the second lies within the first. For any two numbers.
pub fn sound(marks: Marks) -> bool
    ensures { result ≡ sound_marks marks }
{
    let present = marks.present;
    let local = marks.local;
    let shared = local & present;
    (present % 2 == 0) & (local % 2 == 0) & (shared == local)
}
