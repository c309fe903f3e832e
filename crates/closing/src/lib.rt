// How a broadcast closes, and what its close makes old. Each promise is an equation with a definition of the model.
#![tactic(auto)]

ghost use Rattle.std.specs.Prelude.{◌≡◌, cond, eqb};
ghost use Rattle.model.specs.Sound.{old};
ghost use Rattle.model.specs.Closing.{open?, close_by, close_to, closed, retired, takes_over, settled};

use model::{Broadcast, Version, purpose, status};

// Whether somebody is still asked.
pub fn is_open(v: Version) -> bool
    ensures { result ≡ open? v }
{
    v.cast.waiting != 0
}

fn close_by(none_failed: bool, none_confirmed: bool, act: bool, dis: bool) -> u8
    ensures { result ≡ close_by none_failed none_confirmed act dis }
{
    if act {
        if none_failed {
            return status::ACTIVE;
        }
        if none_confirmed {
            return status::FAILED;
        }
        return status::PARTIAL_FAILURE;
    }
    if dis {
        if none_failed {
            return status::OLD;
        }
        return if none_confirmed {
            status::ACTIVE
        } else {
            status::OLD
        };
    }
    status::ACTIVE
}

#[tactic(auto, unfolding(model::specs::Closing::close_to))]
fn close_to(c: Broadcast) -> u8
    ensures { result ≡ close_to c }
{
    close_by(
        c.failed == 0,
        c.confirmed == 0,
        c.purpose == purpose::ACTIVATE,
        c.purpose == purpose::DISCONNECT,
    )
}

// The purpose that is kept at the close.
fn kept_purpose(status: u8, purpose: u8) -> u8
    ensures { result ≡ cond (eqb status old) 0 purpose }
{
    if status == status::OLD {
        purpose::NONE
    } else {
        purpose
    }
}

#[tactic(auto, unfolding(model::specs::Closing::closed))]
pub fn closed(v: Version) -> Version
    ensures { result ≡ closed v }
{
    let status = close_to(v.cast);
    Version {
        status,
        live: (status == status::PARTIAL_FAILURE) | (status == status::ACTIVE),
        cast: Broadcast {
            purpose: kept_purpose(status, v.cast.purpose),
            start: 0,
            ..v.cast
        },
        ..v
    }
}

// The version as it stays open, or closes.
#[tactic(auto, unfolding(model::specs::Closing::settled))]
pub fn settled(v: Version) -> Version
    ensures { result ≡ settled v }
{
    if is_open(v) {
        return v;
    }
    closed(v)
}

// Whether the close makes it live, and any other old.
pub fn takes_over(v: Version) -> bool
    ensures { result ≡ takes_over v }
{
    (v.cast.purpose == purpose::ACTIVATE) & closed(v).live
}

// The live version that a close makes old.
#[tactic(auto, unfolding(model::specs::Closing::retired))]
pub fn retired(stamp: u32, v: Version) -> Version
    ensures { result ≡ retired stamp v }
{
    Version {
        status: status::OLD,
        stamp,
        live: false,
        cast: Broadcast {
            purpose: purpose::NONE,
            ..v.cast
        },
        ..v
    }
}
