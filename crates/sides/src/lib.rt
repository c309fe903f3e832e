// Creates, modifies, cancel, resolve, window: what they make of a version. Each promise is an equation with a definition of the model.
#![tactic(auto)]

ghost use Rattle.std.specs.Prelude.{◌≡◌, cond, ◌<◌, eqb};
ghost use Rattle.model.specs.Creates.{new_joined, old_joined, new_absent, old_absent, new_in, old_in, by_new, new_from, old_from};
ghost use Rattle.model.specs.Creates.{status_by};
ghost use Rattle.model.specs.Creates.{no_broadcast, fresh_numbered, fits, first_due, agrees, concurred};
ghost use Rattle.model.specs.Changes.{new_modified, old_modified, modified, turned, cancelled, acknowledged, own_cancel, resolved};
ghost use Rattle.model.specs.Changes.{window_turned, window_marked, window_spent, awaits_old};
ghost use Rattle.model.specs.Standing.{standing_of};
ghost use Rattle.model.specs.Versions.{rerouted, reauthorized};

use model::{
    Broadcast, Event, Id, Lrn, NewSide, OldSide, Retries, Version, canceller, kind, mark, purpose,
    standing, status,
};

fn standing_by(npac: bool, new: bool, old: bool) -> u8
    ensures { (result ≡ cond npac 2 (cond new 0 (cond old 1 3))) × (result < 4) }
{
    if npac {
        return standing::NPAC;
    }
    if new {
        return standing::NEW;
    }
    if old { standing::OLD } else { standing::OTHER }
}

// 0 the new side, 1 the old side, 2 the NPAC, 3 any other sender.
#[tactic(auto, unfolding(model::specs::Standing::standing_of))]
pub fn standing_of(e: Event, v: Version) -> u8
    ensures { (result ≡ standing_of e v) × (result < 4) }
{
    standing_by(
        e.sender == 0,
        v.new.created & (e.sender == v.new.provider),
        v.old.created & (e.sender == v.old.provider),
    )
}

// The two providers that a create names.
pub fn new_in(e: Event) -> u8
    ensures { result ≡ new_in e }
{
    if e.kind == kind::NEW_CREATES {
        e.sender
    } else {
        e.other
    }
}

pub fn old_in(e: Event) -> u8
    ensures { result ≡ old_in e }
{
    if e.kind == kind::NEW_CREATES {
        e.other
    } else {
        e.sender
    }
}

fn new_joined(e: Event, s: NewSide) -> NewSide
    ensures { result ≡ new_joined e s }
{
    if e.kind == kind::NEW_CREATES {
        NewSide {
            created: true,
            lrn: e.lrn,
            due: e.due,
            ..s
        }
    } else {
        s
    }
}

fn old_joined(e: Event, s: OldSide) -> OldSide
    ensures { result ≡ old_joined e s }
{
    if e.kind == kind::NEW_CREATES {
        s
    } else {
        OldSide {
            created: true,
            authorization: e.mark,
            cause: e.cause,
            due: e.due,
            ..s
        }
    }
}

fn status_by(s: OldSide, other: u8) -> u8
    ensures { result ≡ status_by s other }
{
    if s.authorization == mark::NO {
        status::CONFLICT
    } else {
        other
    }
}

// Whether the side that creates has done so before.
fn has_joined(e: Event, v: Version) -> bool
    ensures { result ≡ cond (by_new e) v.new.created v.old.created }
{
    if e.kind == kind::NEW_CREATES {
        v.new.created
    } else {
        v.old.created
    }
}

// Whether this create fits a worked version.
#[tactic(auto, unfolding(model::specs::Creates::fits))]
pub fn fits(e: Event, v: Version) -> bool
    ensures { result ≡ fits e v }
{
    (v.status != status::CANCEL_PENDING)
        & (v.new.provider == new_in(e))
        & (v.old.provider == old_in(e))
        & !has_joined(e, v)
}

// The due date of the side that has created, where the other creates.
fn first_due(e: Event, v: Version) -> u32
    ensures { result ≡ first_due e v }
{
    if e.kind == kind::NEW_CREATES {
        v.old.due
    } else {
        v.new.due
    }
}

// Whether this create has the due date of the first.
pub fn agrees(e: Event, v: Version) -> bool
    ensures { result ≡ agrees e v }
{
    e.due == first_due(e, v)
}

// A worked version takes the values of the side that concurs.
#[tactic(auto, unfolding(model::specs::Creates::concurred))]
pub fn concurred(e: Event, v: Version) -> Version
    ensures { result ≡ concurred e v }
{
    let old = old_joined(e, v.old);
    Version {
        status: status_by(old, v.status),
        stamp: e.time,
        new: new_joined(e, v.new),
        old,
        ..v
    }
}

// A side that has not created.
fn new_absent(provider: u8) -> NewSide
    ensures { result ≡ new_absent provider }
{
    NewSide {
        provider,
        created: false,
        lrn: Lrn(0),
        due: 0,
    }
}

fn old_absent(provider: u8) -> OldSide
    ensures { result ≡ old_absent provider }
{
    OldSide {
        provider,
        created: false,
        authorization: mark::NONE,
        cause: 0,
        due: 0,
    }
}

// A fresh version with a number.
pub fn fresh(e: Event, number: u16) -> Version
    ensures { result ≡ fresh_numbered e number }
{
    let tn = e.tn;
    let new = new_joined(e, new_absent(new_in(e)));
    let old = old_joined(e, old_absent(old_in(e)));
    Version {
        id: Id { tn, number },
        status: status_by(old, status::PENDING),
        stamp: e.time,
        live: false,
        new,
        old,
        canceller: canceller::NOBODY,
        window: false,
        within: e.within == 1,
        cast: Broadcast {
            purpose: purpose::NONE,
            start: 0,
            confirmed: 0,
            waiting: 0,
            failed: 0,
            retries: Retries::default(),
        },
    }
}

// "no" makes conflict, "yes" pending.
fn status_of(mark: u8) -> u8
    ensures { result ≡ cond (eqb mark 2) 1 0 }
{
    if mark == mark::NO {
        status::CONFLICT
    } else {
        status::PENDING
    }
}

// A side with other values.
fn rerouted(s: NewSide, lrn: Lrn, due: u32) -> NewSide
    ensures { result ≡ rerouted s lrn due }
{
    NewSide { lrn, due, ..s }
}

fn reauthorized(s: OldSide, authorization: u8, cause: u8, due: u32) -> OldSide
    ensures { result ≡ reauthorized s authorization cause due }
{
    OldSide {
        authorization,
        cause,
        due,
        ..s
    }
}

// 3 replaces LRN and due; 4 replaces its three values.
#[tactic(auto, unfolding(model::specs::Changes::new_modified, model::specs::Changes::old_modified))]
pub fn modified(e: Event, v: Version) -> Version
    ensures { result ≡ modified e v }
{
    if e.kind == kind::NEW_MODIFIES {
        return Version {
            stamp: e.time,
            new: rerouted(v.new, e.lrn, e.due),
            ..v
        };
    }
    Version {
        status: status_of(e.mark),
        stamp: e.time,
        old: reauthorized(v.old, e.mark, e.cause, e.due),
        ..v
    }
}

fn turned(e: Event, v: Version, status: u8, canceller: u8, window: bool) -> Version
    ensures { result ≡ turned e v status canceller window }
{
    Version {
        status,
        stamp: e.time,
        canceller,
        window,
        ..v
    }
}

// One side created: canceled. Both: cancel-pending, canceller marked.
#[tactic(auto, unfolding(model::specs::Changes::cancelled))]
pub fn cancelled(e: Event, v: Version) -> Version
    ensures { result ≡ cancelled e v }
{
    if v.new.created & v.old.created {
        let side = standing_of(e, v);
        return turned(e, v, status::CANCEL_PENDING, side + 1, v.window);
    }
    turned(e, v, status::CANCELED, v.canceller, v.window)
}

#[tactic(auto, unfolding(model::specs::Changes::acknowledged))]
pub fn acknowledged(e: Event, v: Version) -> Version
    ensures { result ≡ acknowledged e v }
{
    turned(e, v, status::CANCELED, canceller::NOBODY, v.window)
}

// An acknowledgement by the canceller itself.
#[tactic(auto, unfolding(model::specs::Changes::own_cancel))]
pub fn own_cancel(e: Event, v: Version) -> bool
    ensures { result ≡ own_cancel e v }
{
    let side = standing_of(e, v);
    v.canceller == side + 1
}

#[tactic(auto, unfolding(model::specs::Changes::resolved))]
pub fn resolved(e: Event, v: Version) -> Version
    ensures { result ≡ resolved e v }
{
    Version {
        status: status::PENDING,
        stamp: e.time,
        old: reauthorized(v.old, mark::YES, 0, v.old.due),
        ..v
    }
}

// The window is the old side's: pending, and the new side has created.
pub fn window_marks(v: Version) -> bool
    ensures { result ≡ awaits_old v }
{
    (v.status == status::PENDING) & v.new.created
}

#[tactic(auto, unfolding(model::specs::Changes::window_spent))]
pub fn window_spent(v: Version) -> bool
    ensures { result ≡ window_spent v }
{
    window_marks(v) & (v.old.created | v.window)
}

// Canceled if the new side cancelled, otherwise conflict.
fn withdrawn_to(canceller: u8) -> u8
    ensures { result ≡ cond (eqb canceller 1) 8 1 }
{
    if canceller == canceller::NEW {
        status::CANCELED
    } else {
        status::CONFLICT
    }
}

#[tactic(auto, unfolding(model::specs::Changes::window_turned))]
pub fn window_turned(e: Event, v: Version) -> Version
    ensures { result ≡ window_turned e v }
{
    if v.status == status::CANCEL_PENDING {
        return turned(e, v, withdrawn_to(v.canceller), canceller::NOBODY, v.window);
    }
    turned(e, v, status::CANCELED, v.canceller, v.window)
}

#[tactic(auto, unfolding(model::specs::Changes::window_marked))]
pub fn window_marked(e: Event, v: Version) -> Version
    ensures { result ≡ window_marked e v }
{
    turned(e, v, v.status, v.canceller, true)
}
