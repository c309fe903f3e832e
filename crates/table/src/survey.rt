// What the versions of one line have together: one pass over their rows, from the last to the first.
ghost use Rattle.std.specs.Prelude.{◌≡◌, cond, List, [], ℕ, ◌+◌, ◌*◌, ◌≤◌, ◌<◌};
ghost use Rattle.std.proofs.Math.Seq.{slice};
ghost use Rattle.model.specs.Table.{rows_of};
ghost use Rattle.rows.specs.Table.{decode};
ghost use Rattle.scan.specs.Sound.{SoundTable, itself};
ghost use Rattle.model.specs.declared.Version.{Version};
ghost use Rattle.table.specs.Survey.{seen_at, facts_at, Summed, Adds, rows_beyond, rows_under, Surveyed};

use crate::{Table, find};
use model::{Tn, Version, status};
use scan::join;

// A version, with its place.
#[derive(Clone, Copy)]
pub struct Placed {
    pub at: usize,
    pub version: Version,
}

// Of the versions of a line: the newest number, the largest stamp, whether one is sending. For a create the live one and the worked one.
// For any other kind the one that is asked for, and of those but this one whether one is sending, which blocks a broadcast, and the live
// one, which the asked one makes a former.
#[derive(Clone, Copy)]
pub struct Facts {
    pub newest: u16,
    pub stamp: u32,
    pub sends: bool,
    pub blocked: bool,
    pub former: Option<Placed>,
    pub live: Option<Placed>,
    pub worked: Option<Placed>,
    pub asked: Option<Placed>,
}

// Place i where its version passes, else the one before. A number, so that it is taken without a branch.
fn first(passes: bool, i: usize, p: usize) -> usize
    ensures { result ≡ cond passes i p }
{
    if passes { i } else { p }
}

// The version at a place, or nobody where the place is none of the used ones.
fn look(t: &Table, i: usize) -> Option<Placed>
    ensures { result ≡ seen_at (decode t.now.bytes.now) t.now.used i }
{
    if i < t.used {
        let version = rows::load(t.bytes, i);
        return Some(Placed { at: i, version });
    }
    None
}

// The facts of the versions seen so far, each version by its place; n where there is none.
#[derive(Clone, Copy)]
struct Pass {
    newest: u16,
    stamp: u32,
    sends: bool,
    blocked: bool,
    former: usize,
    live: usize,
    worked: usize,
    asked: usize,
}

// No version seen.
fn none(n: usize) -> Pass
    ensures { (vs : List Version) (k : ℕ) → Summed vs [] k (facts_at vs n result) }
{
    Pass {
        newest: 0,
        stamp: 0,
        sends: false,
        blocked: false,
        former: n,
        live: n,
        worked: n,
        asked: n,
    }
}

// The versions from `from` up to, not including, `to`, before those of p: of each what the sums ask.
fn over(t: &Table, number: u16, from: usize, to: usize, p: Pass) -> Pass
    requires from_le_to { (from ≤ to) × (to ≤ t.now.used) }
    ensures { Adds (decode t.now.bytes.now) t.now.used number (slice from to (decode t.now.bytes.now)) p result }
{
    let mut sum = p;
    for i in (from..to).rev() {
        let v = rows::load(t.bytes, i);
        let own = v.id.number == number;
        let other = !own;
        let sending = v.status == status::SENDING;
        sum = Pass {
            newest: v.id.number.max(sum.newest),
            stamp: v.stamp.max(sum.stamp),
            sends: sending | sum.sends,
            blocked: (other & sending) | sum.blocked,
            former: first(other & v.live, i, sum.former),
            live: first(v.live, i, sum.live),
            worked: first(join::is_worked(v.status), i, sum.worked),
            asked: first(own, i, sum.asked),
        };
    }
    sum
}

// The versions of one TN, before those of p.
fn under(t: &Table, tn: Tn, number: u16, p: Pass) -> Pass
    requires tn_bound { tn.0 < 17179869184 }
    ensures { Adds (decode t.now.bytes.now) t.now.used number (rows_of itself tn.0 (decode t.now.bytes.now)) p result }
{
    let at = find::versions(t.bytes, t.used, tn);
    over(t, number, at.from, at.to, p)
}

// Whole those versions that the kind asks for.
fn whole(t: &Table, create: bool, p: Pass) -> Facts
    ensures { (rs : List Version) (k : ℕ) → Summed (decode t.now.bytes.now) rs k (facts_at (decode t.now.bytes.now) t.now.used p)
        → Surveyed (decode t.now.bytes.now) rs k create result }
{
    if create {
        return Facts {
            newest: p.newest,
            stamp: p.stamp,
            sends: p.sends,
            blocked: p.blocked,
            former: None,
            live: look(t, p.live),
            worked: look(t, p.worked),
            asked: None,
        };
    }
    Facts {
        newest: p.newest,
        stamp: p.stamp,
        sends: p.sends,
        blocked: p.blocked,
        former: look(t, p.former),
        live: None,
        worked: None,
        asked: look(t, p.asked),
    }
}

// The versions of the larger TN of a line that has two names; of a line of one name none.
fn beyond(t: &Table, low: Tn, high: Tn, number: u16) -> Pass
    requires high_bound { high.0 < 17179869184 }
    ensures { Summed (decode t.now.bytes.now) (rows_beyond low.0 high.0 (decode t.now.bytes.now)) number
        (facts_at (decode t.now.bytes.now) t.now.used result) }
{
    let p = none(t.used);
    if low.0 < high.0 {
        return under(t, high, number, p);
    }
    p
}

// What the versions of a line have together, with the version of that number and the others, as a create or any other kind asks. Its names
// are the TNs low and high, equal where it has but one.
pub fn line(t: &[u8], n: usize, low: Tn, high: Tn, number: u16, create: bool) -> Facts
    requires sound_table { SoundTable t.now n }
    requires low_le_high { (low.0 ≤ high.0) × (high.0 < 17179869184) }
    ensures { Surveyed (decode t.now) (rows_under low.0 high.0 (decode t.now)) number create result }
{
    let t = Table { bytes: t, used: n };
    let p = beyond(&t, low, high, number);
    let p = under(&t, low, number, p);
    whole(&t, create, p)
}
