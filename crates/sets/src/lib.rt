// What the sets of a broadcast and its retries have: sets of providers, apart from one another, and retries of waiting systems alone.
#![tactic(auto)]

ghost use Rattle.std.specs.Prelude.{◌≡◌, ◌<◌};
ghost use Rattle.model.specs.Numbers.{is_set};
ghost use Rattle.model.specs.Sound.{apart, sets_apart, retries_in_range, retries_fit};
ghost use Rattle.sets.specs.Digits.{digits_wait};
ghost use Rattle.sets.specs.Order.{sets_fit, retries_sound};

use model::{Broadcast, Retries};

pub fn is_set(s: u64) -> bool
    ensures { result ≡ is_set s }
{
    s % 2 == 0
}

// Whether no provider is in both sets. Place 0 is no provider's.
fn disjoint(a: u64, b: u64) -> bool
    ensures { result ≡ apart a b }
{
    (a & b) < 2
}

pub fn sets_apart(c: Broadcast) -> bool
    ensures { result ≡ sets_apart c }
{
    disjoint(c.confirmed, c.waiting)
        & disjoint(c.confirmed, c.failed)
        & disjoint(c.waiting, c.failed)
}

// Sets of providers, no two with a provider in common.
pub fn sets_fit(c: Broadcast) -> bool
    ensures { result ≡ sets_fit c }
{
    is_set(c.confirmed) & is_set(c.waiting) & is_set(c.failed) & sets_apart(c)
}

pub fn retries_in_range(r: Retries) -> bool
    ensures { result ≡ retries_in_range r }
{
    (r.low < 9223372036854775808) & (r.mid < 9223372036854775808) & (r.high < 9223372036854775808)
}

// Whether each of 21 digits is 0 or its system is in the set, whose place 0 is the first of them; done where all digits left are 0.
// Kept: the loop counts no index, and ends where no digit is left; a `for` over 21 places is no plainer.
fn digits_wait(word: u64, set: u64) -> bool
    requires { word < 9223372036854775808 }
    ensures { result ≡ digits_wait 21 word set }
{
    let mut w = word;
    let mut s = set;
    while w != 0 {
        if (w % 8) * (1 - s % 2) != 0 {
            return false;
        }
        w = w / 8;
        s = s / 2;
    }
    true
}

// Systems 1 to 21, 22 to 42, 43 to 63.
pub fn all_wait(c: Broadcast) -> bool
    ensures { result ≡ retries_fit c }
{
    let low = c.retries.low % 9223372036854775808;
    let mid = c.retries.mid % 9223372036854775808;
    let high = c.retries.high % 9223372036854775808;
    if !digits_wait(low, c.waiting / 2) {
        return false;
    }
    if !digits_wait(mid, c.waiting / 4194304) {
        return false;
    }
    digits_wait(high, c.waiting / 8796093022208)
}

fn used_fit(c: Broadcast) -> bool
    ensures { result ≡ retries_sound c }
{
    let retries = c.retries;
    if !retries_in_range(retries) {
        return false;
    }
    all_wait(c)
}

// In range, and only of waiting systems; mostly none are used.
pub fn retries_sound(c: Broadcast) -> bool
    ensures { result ≡ retries_sound c }
{
    if c.retries == Retries::default() {
        return true;
    }
    used_fit(c)
}
