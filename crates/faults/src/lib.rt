// Where something is unsound: a clause's number, and the place that breaks it. docs/FAULTS.md has the numbers.
#![tactic(auto)]

ghost use Rattle.std.specs.Prelude.{◌≡◌, cond, ◌+◌, ◌<◌, eqb, ℕ, Bool, [], ◌∷◌};
ghost use Rattle.std.specs.Prelude.{Option, Some, None};
ghost use Rattle.faults.specs.declared.Found.{Found};
ghost use Rattle.faults.specs.Faults.{found_at, broken, told, first_broken, once, nearest, first_fault, Answers};

// What one place breaks: a clause, and the place of another with which it breaks it, 0 for none.
#[derive(Clone, Copy)]
pub struct Found {
    pub clause: u64,
    pub second: u64,
}

// The same with the place, from 1. To C all are 0 where nothing is at fault.
#[repr(C)]
#[derive(Clone, Copy, Default)]
pub struct Fault {
    pub clause: u64,
    pub place: u64,
    pub second: u64,
}

// A clause that holds leaves it to the rest; any other is what is found.
pub fn unless(holds: bool, clause: u64, second: u64, rest: Option<Found>) -> Option<Found>
    ensures { result ≡ cond holds rest (Some (found_at clause second)) }
{
    if holds {
        return rest;
    }
    Some(Found { clause, second })
}

// A clause that a place breaks with the place `other`, 0 for none.
pub fn once(clause: u64, other: u64, rest: Option<Found>) -> Option<Found>
    ensures { result ≡ first_broken (once clause other ∷ []) rest }
{
    unless(other == 0, clause, other, rest)
}

// A fault of the whole, at no place.
pub fn whole(clause: u64) -> Fault
    ensures { result ≡ broken clause }
{
    Fault {
        clause,
        place: 0,
        second: 0,
    }
}

// The nearest place before place i that passes the test, from 1; 0 where none does.
pub fn nearest<F: Fn(usize) -> bool>(i: usize, passes: F) -> u64
    requires { (j : ℕ) → j < i → F.pre passes j }
    ensures { (p : ℕ → Bool) → Answers (F.post passes) i p → result ≡ nearest p i }
{
    for j in (0..i).rev() {
        if passes(j) {
            return j as u64 + 1;
        }
    }
    0
}

// The first of n places at which something is found.
pub fn first<F: Fn(usize) -> Option<Found>>(n: usize, found: F) -> Option<Fault>
    requires { (i : ℕ) → i < n → F.pre found i }
    ensures { (g : ℕ → Option Found) → Answers (F.post found) n g → result ≡ first_fault g n 0 }
{
    for i in 0..n {
        if let Some(f) = found(i) {
            return Some(Fault {
                clause: f.clause,
                place: i as u64 + 1,
                second: f.second,
            });
        }
    }
    None
}

// What C is told: a fault, or zeros.
pub fn tell(f: Option<Fault>) -> Fault
    ensures { result ≡ told f }
{
    f.unwrap_or_default()
}
