// What a version's broadcast has.
ghost use Rattle.std.specs.Prelude.{◌≡◌};
ghost use Rattle.model.specs.Sound.{start_fits, waiting_fits, live_confirmed};
ghost use Rattle.sound.specs.Order.{times_fit, cast_fits};

use crate::ranges;
use model::{Version, purpose, status};

pub fn start_fits(v: Version) -> bool
    ensures { result ≡ start_fits v }
{
    (0 < v.cast.start) == (v.status == status::SENDING)
}

pub fn waiting_fits(v: Version) -> bool
    ensures { result ≡ waiting_fits v }
{
    (0 < v.cast.waiting) == (v.status == status::SENDING)
}

pub fn live_confirmed(v: Version) -> bool
    ensures { result ≡ live_confirmed v }
{
    !(v.live & (v.cast.purpose == purpose::ACTIVATE))
        | ((0 < v.cast.confirmed) | ((v.cast.waiting == 0) & (v.cast.failed == 0)))
}

// The stamp and the start, and who waits.
pub fn times_fit(v: Version) -> bool
    ensures { result ≡ times_fit v }
{
    let start = (v.cast.start as u64) < 4294967296;
    ranges::is_time(v.stamp) & start & start_fits(v) & waiting_fits(v)
}

// All that a version's broadcast has.
pub fn cast_fits(v: Version) -> bool
    ensures { result ≡ cast_fits v }
{
    let cast = v.cast;
    if !times_fit(v) {
        return false;
    }
    if !sets::sets_fit(cast) {
        return false;
    }
    if !live_confirmed(v) {
        return false;
    }
    sets::retries_sound(cast)
}
