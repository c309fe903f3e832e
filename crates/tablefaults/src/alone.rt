// The clauses on a version by itself, in the order of their numbers: each group finds its first that does not hold, or leaves it to the
// rest.
ghost use Rattle.std.specs.Prelude.{◌≡◌};
ghost use Rattle.faults.specs.Faults.{first_broken};
ghost use Rattle.model.specs.declared.Broadcast.{Broadcast};
ghost use Rattle.model.specs.Sound.{one_created, sides_needed, purpose_fits, live_fits};
ghost use Rattle.tablefaults.specs.Clauses.{type_clauses, sets_in_range, rest_in_range, range_clauses, side_clauses, cast_clauses};

use faults::Found;
use model::{Broadcast, Version, canceller, purpose, status};

fn sets_in_range(c: Broadcast) -> bool
    ensures { result ≡ sets_in_range c }
{
    sets::is_set(c.confirmed) & sets::is_set(c.waiting) & sets::is_set(c.failed)
}

fn rest_in_range(c: Broadcast) -> bool
    ensures { result ≡ rest_in_range c }
{
    let retries = c.retries;
    (c.purpose <= purpose::LAST) & ((c.start as u64) < 4294967296) & sets::retries_in_range(retries)
}

// Clauses 5 to 13.
pub fn ranges(v: Version, rest: Option<Found>) -> Option<Found>
    ensures { result ≡ first_broken (range_clauses v) rest }
{
    let cast = v.cast;
    let f = faults::unless(rest_in_range(cast), 13, 0, rest);
    let f = faults::unless(sets_in_range(cast), 12, 0, f);
    let f = faults::unless(v.canceller <= canceller::LAST, 11, 0, f);
    let f = faults::unless(sound::ranges::is_provider(v.old.provider), 10, 0, f);
    let f = faults::unless(sound::ranges::is_provider(v.new.provider), 9, 0, f);
    let f = faults::unless(sound::ranges::is_time(v.stamp), 8, 0, f);
    let f = faults::unless(v.status <= status::LAST, 7, 0, f);
    let f = faults::unless(sound::ranges::is_number(v.id.number), 6, 0, f);
    faults::unless(sound::ranges::ten_digits(v.id.tn.0), 5, 0, f)
}

fn one_created(v: Version) -> bool
    ensures { result ≡ one_created v }
{
    v.new.created | v.old.created
}

// In conflict the old side, in cancel-pending both, in statuses 3 to 7 the new side.
fn sides_needed(v: Version) -> bool
    ensures { result ≡ sides_needed v }
{
    let s = v.status;
    let new = v.new.created;
    let old = v.old.created;
    let purposed = (s == status::SENDING)
        | ((s == status::FAILED) | ((s == status::PARTIAL_FAILURE) | (s == status::ACTIVE)));
    (!(s == status::CONFLICT) | old)
        & (!(s == status::CANCEL_PENDING) | (new & old))
        & (!(purposed | (s == status::OLD)) | new)
}

// Clauses 14 to 20.
pub fn sides(v: Version, rest: Option<Found>) -> Option<Found>
    ensures { result ≡ first_broken (side_clauses v) rest }
{
    let new = v.new;
    let old = v.old;
    let f = faults::unless(sound::sides::canceller_fits(v), 20, 0, rest);
    let f = faults::unless(sound::sides::cause_fits(old), 19, 0, f);
    let f = faults::unless(sides_needed(v), 18, 0, f);
    let f = faults::unless(one_created(v), 17, 0, f);
    let f = faults::unless(sound::sides::old_whole(old), 16, 0, f);
    let f = faults::unless(sound::sides::new_whole(new), 15, 0, f);
    faults::unless(sound::sides::providers_fit(v), 14, 0, f)
}

// A purpose exactly in statuses 3 to 6, activate in 4 and 5.
fn purpose_fits(v: Version) -> bool
    ensures { result ≡ purpose_fits v }
{
    let s = v.status;
    let purposed = (s == status::SENDING)
        | ((s == status::FAILED) | ((s == status::PARTIAL_FAILURE) | (s == status::ACTIVE)));
    ((purpose::NONE < v.cast.purpose) == purposed)
        & (!((s == status::FAILED) | (s == status::PARTIAL_FAILURE))
            | (v.cast.purpose == purpose::ACTIVATE))
}

// Live in 5 and 6, in 3 unless the purpose is activate (then perhaps), nowhere else.
fn live_fits(v: Version) -> bool
    ensures { result ≡ live_fits v }
{
    let s = v.status;
    let either = v.live | (v.cast.purpose == purpose::ACTIVATE);
    if s == status::SENDING {
        return either;
    }
    v.live == ((s == status::PARTIAL_FAILURE) | (s == status::ACTIVE))
}

// Clauses 21 to 27.
pub fn cast(v: Version, rest: Option<Found>) -> Option<Found>
    ensures { result ≡ first_broken (cast_clauses v) rest }
{
    let cast = v.cast;
    let f = faults::unless(sound::cast::live_confirmed(v), 27, 0, rest);
    let f = faults::unless(live_fits(v), 26, 0, f);
    let f = faults::unless(purpose_fits(v), 25, 0, f);
    let f = faults::unless(sound::cast::waiting_fits(v), 24, 0, f);
    let f = faults::unless(sound::cast::start_fits(v), 23, 0, f);
    let f = faults::unless(sets::all_wait(cast), 22, 0, f);
    faults::unless(sets::sets_apart(cast), 21, 0, f)
}

// Clause 37.
pub fn typed(v: Version, rest: Option<Found>) -> Option<Found>
    ensures { result ≡ first_broken (type_clauses v) rest }
{
    faults::unless(sound::sides::within_fits(v), 37, 0, rest)
}
