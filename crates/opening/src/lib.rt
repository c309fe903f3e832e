// How a broadcast opens: its purpose, whom it asks, and what it keeps. Each promise is an equation with a definition of the model.
#![tactic(auto)]

ghost use Rattle.std.specs.Prelude.{◌≡◌, cond};
ghost use Rattle.model.specs.Record.{is_broadcast};
ghost use Rattle.model.specs.Broadcast.{resends, new_for, asked_for, purpose_for, opened};

use model::{Broadcast, Event, NewSide, Retries, Version, kind, purpose, status};

// The kinds that begin a broadcast.
pub fn is_broadcast(kind: u8) -> bool
    ensures { result ≡ is_broadcast kind }
{
    (kind == kind::ACTIVATE)
        | ((kind == kind::MODIFY_ACTIVE) | ((kind == kind::DISCONNECT) | (kind == kind::RESEND)))
}

fn purpose_for(e: Event, v: Version) -> u8
    ensures { result ≡ purpose_for e v }
{
    if e.kind == kind::RESEND {
        return v.cast.purpose;
    }
    if e.kind == kind::ACTIVATE {
        return purpose::ACTIVATE;
    }
    if e.kind == kind::MODIFY_ACTIVE {
        purpose::MODIFY
    } else {
        purpose::DISCONNECT
    }
}

// Whom a broadcast asks: all selected systems, or at a resend those failed that are selected now.
#[tactic(auto, unfolding(model::specs::Broadcast::asked_for))]
fn asked_for(selected: u64, e: Event, v: Version) -> u64
    ensures { result ≡ asked_for selected e v }
{
    if e.kind == kind::RESEND {
        return systems::meet(v.cast.failed, selected);
    }
    selected
}

fn confirmed_for(e: Event, v: Version) -> u64
    ensures { result ≡ cond (resends e) v.cast.confirmed 0 }
{
    if e.kind == kind::RESEND {
        v.cast.confirmed
    } else {
        0
    }
}

// 9 replaces the LRN at once.
fn new_for(e: Event, v: Version) -> NewSide
    ensures { result ≡ new_for e v }
{
    if e.kind == kind::MODIFY_ACTIVE {
        NewSide {
            lrn: e.lrn,
            ..v.new
        }
    } else {
        v.new
    }
}

// The version in a broadcast that asks the selected systems.
#[tactic(auto, unfolding(model::specs::Broadcast::opened))]
pub fn opened(selected: u64, e: Event, v: Version) -> Version
    ensures { result ≡ opened selected e v }
{
    Version {
        status: status::SENDING,
        stamp: e.time,
        new: new_for(e, v),
        cast: Broadcast {
            purpose: purpose_for(e, v),
            start: e.time,
            confirmed: confirmed_for(e, v),
            waiting: asked_for(selected, e, v),
            failed: 0,
            retries: Retries::default(),
        },
        ..v
    }
}
