// How a broadcast hears a reply or a silence. Each promise is an equation with a definition of the model.
#![tactic(auto)]

pub mod retries;

ghost use Rattle.std.specs.Prelude.{◌≡◌, true, false, ◌≤◌, ◌<◌, max};
ghost use Rattle.model.specs.Numbers.{last_provider};
ghost use Rattle.model.specs.Books.{most_retries};
ghost use Rattle.model.specs.Answers.{answering, awaited, again, succeeds, moves, moved, heard};
ghost use Rattle.answers.specs.Waits.{Waits};

use model::{Broadcast, Event, Version, kind, mark};

// The Local SMS that replies, or is silent.
pub fn answering(e: Event) -> u8
    ensures { result ≡ answering e }
{
    if e.kind == kind::REPLY {
        e.sender
    } else {
        e.other
    }
}

pub fn awaited(e: Event, v: Version) -> bool
    ensures { result ≡ awaited e v }
{
    systems::has(v.cast.waiting, answering(e))
}

// A silence with fewer than R retries used asks again.
#[tactic(auto, unfolding(model::specs::Answers::again))]
pub fn again(most: u8, e: Event, c: Broadcast) -> bool
    requires { (1 ≤ answering e) × (answering e ≤ last_provider) }
    ensures { result ≡ again most e c }
{
    let n = retries::used(c.retries, answering(e));
    (e.kind == kind::SILENCE) & (n < most)
}

fn succeeds(e: Event) -> bool
    ensures { result ≡ succeeds e }
{
    (e.kind == kind::REPLY) & (e.mark == mark::YES)
}

// System p, which is waited for, is asked again.
fn asked_again(p: u8, d: u8, c: Broadcast) -> Broadcast
    requires d_bound { d < 7 }
    requires waits { Waits c p }
    ensures { result ≡ moves true true p d c }
{
    Broadcast {
        retries: retries::with_used(c.retries, p, d + 1),
        ..c
    }
}

// System p, which is waited for, leaves the waiting.
fn leaves(success: bool, p: u8, d: u8, c: Broadcast) -> Broadcast
    requires { Waits c p }
    ensures { result ≡ moves false success p d c }
{
    let left = Broadcast {
        waiting: systems::without(c.waiting, p),
        retries: retries::with_used(c.retries, p, 0),
        ..c
    };
    if success {
        Broadcast {
            confirmed: systems::with(c.confirmed, p),
            ..left
        }
    } else {
        Broadcast {
            failed: systems::with(c.failed, p),
            ..left
        }
    }
}

#[tactic(auto, using(crate::proofs::Arrive::few_used), unfolding(model::specs::Answers::moved))]
fn moved(most: u8, e: Event, c: Broadcast) -> Broadcast
    requires most_le_most_retries { most ≤ most_retries }
    requires waits { Waits c (answering e) }
    ensures { result ≡ moved most e c }
{
    let p = answering(e);
    let d = retries::used(c.retries, p);
    if again(most, e, c) {
        return asked_again(p, d, c);
    }
    leaves(succeeds(e), p, d, c)
}

// The version after an awaited answer.
#[tactic(auto, unfolding(model::specs::Answers::heard))]
pub fn heard(most: u8, e: Event, v: Version) -> Version
    requires most_le_most_retries { most ≤ most_retries }
    requires waits { Waits v.cast (answering e) }
    ensures { result ≡ heard most e v }
{
    Version {
        stamp: v.stamp.max(e.time),
        cast: moved(most, e, v.cast),
        ..v
    }
}
