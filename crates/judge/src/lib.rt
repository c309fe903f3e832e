// What an event gets: the tests of its kind in document 01's order.
#![tactic(auto)]

ghost use Rattle.std.specs.Prelude.{◌≡◌, true, cond, not, ◌&&◌, ◌≤◌, Ok, Err};
ghost use Rattle.model.specs.Sound.{last_status};
ghost use Rattle.model.specs.Basics.{holds};
ghost use Rattle.model.specs.Standing.{is_grid_kind, unready};
ghost use Rattle.model.specs.Creates.{current_or, fits, agrees};
ghost use Rattle.model.specs.Refusals.{idle};
ghost use Rattle.table.specs.Survey.{the_one};
ghost use Rattle.judge.specs.Judged.{missing_in, absent_in, go_on, create_for, unknown_by, answer_for, busy_for, other_for};

use model::{Event, Marks, Outcome, Version, kind, limit, status};
use table::survey::{Facts, Placed};

// ---- sender and other

fn missing(m: Marks, p: u8) -> bool
    ensures { result ≡ missing_in m p }
{
    let here = systems::has(m.present, p);
    (p != 0) & !here
}

pub fn absent(m: Marks, e: Event) -> bool
    ensures { result ≡ absent_in m e }
{
    missing(m, e.sender) | missing(m, e.other)
}

// ---- an order: the first refusal whose test holds ends it

fn refuse(test: bool, refusal: Outcome) -> Result<(), Outcome>
    ensures { result ≡ cond test (Err refusal) (Ok tt) }
{
    if test { Err(refusal) } else { Ok(()) }
}

// ---- creates

// The live version's new provider, else the code's owner.
fn current(owner: u8, live: Option<Placed>) -> u8
    ensures { result ≡ current_or owner (the_one live) }
{
    live.map_or(owner, |p| p.version.new.provider)
}

fn unfit(e: Event, worked: Option<Placed>) -> bool
    ensures { result ≡ holds (the_one worked) (λ v. not (fits e v)) }
{
    worked.is_some_and(|p| !sides::fits(e, p.version))
}

// A concurring create with another due date than the first.
fn another_due(e: Event, worked: Option<Placed>) -> bool
    ensures { result ≡ holds (the_one worked) (λ v. fits e v && not (agrees e v)) }
{
    worked.is_some_and(|p| sides::fits(e, p.version) & !sides::agrees(e, p.version))
}

#[tactic(auto, unfolding(crate::specs::Judged::create_for))]
pub fn create(e: Event, absent: bool, owner: u8, f: Facts, free: bool) -> Result<(), Outcome>
    ensures { result ≡ go_on (create_for e absent owner f free) }
{
    let fresh = f.worked.is_none();
    refuse(absent, Outcome::Absent)?;
    refuse(owner == 0, Outcome::Unlisted)?;
    refuse(f.sends, Outcome::Busy)?;
    refuse(e.time < f.stamp, Outcome::Early)?;
    refuse(
        sides::old_in(e) != current(owner, f.live),
        Outcome::NotCurrent,
    )?;
    refuse(unfit(e, f.worked), Outcome::Unfit)?;
    refuse(another_due(e, f.worked), Outcome::AnotherDue)?;
    refuse(fresh & (limit::NUMBER <= f.newest), Outcome::Exhausted)?;
    refuse(fresh & !free, Outcome::Full)
}

// ---- kinds 11 and 12

pub fn unknown(absent: bool) -> Outcome
    ensures { result ≡ unknown_by absent }
{
    if absent {
        Outcome::Absent
    } else {
        Outcome::Unknown
    }
}

pub fn answer(e: Event, absent: bool, v: Version) -> Result<(), Outcome>
    ensures { result ≡ go_on (answer_for e absent v) }
{
    refuse(absent, Outcome::Absent)?;
    refuse(!answers::awaited(e, v), Outcome::Unawaited)?;
    refuse(e.time < v.cast.start, Outcome::Early)
}

// ---- all others

// The finer conditions that add 7.
fn unready(e: Event, v: Version) -> bool
    ensures { result ≡ unready e v }
{
    if e.kind == kind::ACTIVATE {
        return !(v.old.created | v.window | v.within);
    }
    if e.kind == kind::WINDOW_RAN_OUT {
        return v.within;
    }
    if (e.kind == kind::MODIFY_ACTIVE) | (e.kind == kind::DISCONNECT) {
        return v.cast.failed != 0;
    }
    (e.kind == kind::RESEND) & (v.status == status::ACTIVE) & (v.cast.failed == 0)
}

fn busy(e: Event, f: Facts, v: Version) -> bool
    ensures { result ≡ busy_for e f v }
{
    if opening::is_broadcast(e.kind) {
        return f.blocked
            | ((e.kind == kind::RESEND) & (v.status == status::FAILED) & (v.id.number < f.newest));
    }
    (e.kind == kind::PURGE) & (f.newest <= v.id.number)
}

fn idle(e: Event, v: Version) -> bool
    ensures { result ≡ idle e v }
{
    if e.kind == kind::ACKNOWLEDGE_CANCEL {
        return sides::own_cancel(e, v);
    }
    let spent = sides::window_spent(v);
    (e.kind == kind::WINDOW_RAN_OUT) & spent
}

#[tactic(auto, unfolding(crate::specs::Judged::other_for))]
pub fn other(e: Event, absent: bool, f: Facts, v: Version) -> Result<(), Outcome>
    requires { (v.status ≤ last_status) × (is_grid_kind e.kind ≡ true) }
    ensures { result ≡ go_on (other_for e absent f v) }
{
    let entry = grid::grid(v.status, e.kind, sides::standing_of(e, v));
    let early = (e.time < f.stamp) | ((e.kind == kind::ACTIVATE) & (e.time < v.new.due));
    refuse(absent, Outcome::Absent)?;
    refuse(entry == 6, Outcome::Standless)?;
    refuse((entry == 7) | unready(e, v), Outcome::Misplaced)?;
    refuse(busy(e, f, v), Outcome::Busy)?;
    refuse(early, Outcome::Early)?;
    refuse(idle(e, v), Outcome::Unawaited)
}
