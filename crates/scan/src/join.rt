// What a version must be to come next: the order, and what the versions of one number may have at most once.
ghost use Rattle.std.specs.Prelude.{◌≡◌, cond, ◌/◌, ◌<◌, eqb};
ghost use Rattle.model.specs.Sound.{is_worked, live, sends, worked};
ghost use Rattle.scan.specs.Join.{join_of};
ghost use Rattle.scan.specs.Carried.{bits_of, group_of, joined_by, Few};

use model::{Tn, Version, status};

// The last version's place in the order, and as bits whether a version of its number is live, sending, worked.
#[derive(Clone, Copy, Default)]
pub struct Bits {
    pub last: u64,
    pub had: u64,
}

// Pending, conflict or cancel-pending.
pub fn is_worked(s: u8) -> bool
    ensures { result ≡ is_worked s }
{
    (s == status::PENDING) | ((s == status::CONFLICT) | (s == status::CANCEL_PENDING))
}

// What v has of what a number may have once: live 1, sending 2, worked 4.
fn bits_of(v: Version) -> u64
    ensures { (result ≡ bits_of (live v) (sends v) (worked v)) × (result < 8) }
{
    let live = u64::from(v.live);
    let sends = u64::from(v.status == status::SENDING);
    let worked = u64::from(is_worked(v.status));
    live + sends * 2 + worked * 4
}

// What the versions of this number had so far: nothing, if it is another number than the last one's.
fn had_of(s: Bits, tn: Tn) -> u64
    requires { s.had < 8 }
    ensures { (result ≡ cond (eqb tn.0 (s.last / 65536)) s.had 0) × (result < 8) }
{
    if tn.0 == s.last / 65536 { s.had } else { 0 }
}

pub fn follow(s: Bits, v: Version) -> Option<Bits>
    requires { (v.id.tn.0 < 17179869184) × (s.had < 8) }
    ensures { (joined_by result ≡ join_of (group_of s) v) × Few result }
{
    let tn = v.id.tn;
    let last = tn.0 * 65536 + v.id.number as u64;
    let has = bits_of(v);
    let had = had_of(s, tn);
    if s.last < last {
        if had & has == 0 {
            return Some(Bits {
                last,
                had: had + has,
            });
        }
    }
    None
}
