// What the two sides of a version have. Each test is the same for a side that has created and for one that has not: a branch on that mark
// would go either way from row to row.
ghost use Rattle.std.specs.Prelude.{◌≡◌, ◌&&◌};
ghost use Rattle.model.specs.Sound.{providers_fit, new_whole, old_whole, cause_fits, canceller_fits, within_fits};

use crate::ranges;
use model::{NewSide, OldSide, Version, canceller, limit, mark, status};

pub fn providers_fit(v: Version) -> bool
    ensures { result ≡ providers_fit v }
{
    v.within == (v.new.provider == v.old.provider)
}

pub fn new_whole(s: NewSide) -> bool
    ensures { result ≡ new_whole s }
{
    (s.created == (s.due != 0))
        & (s.created == (s.lrn.0 != 0))
        & (s.created == ranges::ten_digits(s.lrn.0))
}

pub fn old_whole(s: OldSide) -> bool
    ensures { result ≡ old_whole s }
{
    (s.created == (s.due != 0))
        & (s.created == (s.authorization != mark::NONE))
        & (s.authorization <= mark::NO)
}

pub fn cause_fits(s: OldSide) -> bool
    ensures { result ≡ cause_fits s }
{
    ((s.authorization == mark::NO) == (s.cause != 0)) & (s.cause <= limit::CAUSE)
}

pub fn canceller_fits(v: Version) -> bool
    ensures { result ≡ canceller_fits v }
{
    (canceller::NOBODY < v.canceller) == (v.status == status::CANCEL_PENDING)
}

// Within one provider only the new side has created, and no window mark is set.
pub fn within_fits(v: Version) -> bool
    ensures { result ≡ within_fits v }
{
    !v.within | (!v.old.created & !v.window)
}

// All of them.
pub fn sides_fit(v: Version) -> bool
    ensures { result ≡ (providers_fit v && new_whole v.new && old_whole v.old && cause_fits v.old && canceller_fits v
        && within_fits v) }
{
    let new = v.new;
    let old = v.old;
    if !new_whole(new) {
        return false;
    }
    if !old_whole(old) {
        return false;
    }
    providers_fit(v) & cause_fits(old) & canceller_fits(v) & within_fits(v)
}
