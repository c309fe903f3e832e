// What an accepted event does: the rows that change, each at its place, and who is told.
ghost use Rattle.std.specs.Prelude.{◌≡◌, cond, [], ◌∷◌, ◌++◌, ◌+◌, ◌≤◌, ◌<◌};
ghost use Rattle.std.proofs.Math.Option.{none};
ghost use Rattle.model.specs.Sound.{disconnect};
ghost use Rattle.model.specs.Numbers.{last_number};
ghost use Rattle.model.specs.Books.{most_retries};
ghost use Rattle.model.specs.Record.{is_modify};
ghost use Rattle.model.specs.Table.{put, add};
ghost use Rattle.model.specs.Given.{accept};
ghost use Rattle.model.specs.Tray.{restated_told, window_told, created_told, download_to};
ghost use Rattle.model.specs.Changes.{turns, window_runs};
ghost use Rattle.model.specs.Closing.{settling_told};
ghost use Rattle.model.specs.Broadcast.{broadcast_of};
ghost use Rattle.model.specs.Answers.{answering, answers};
ghost use Rattle.answers.specs.Waits.{Waits};
ghost use Rattle.table.specs.Survey.{the_one};
ghost use Rattle.verdict.specs.Verdict.{messages_of};
ghost use Rattle.rules.specs.Rules.{Puts, Settles, Adds, replaced_by, Settled, Manages, Creates};

use crate::told;
use model::{Event, Lrn, Outcome, Version, kind, sort};
use table::survey::Placed;
use verdict::{Mail, Rows, To, Verdict};

// ---- one row

// w at place i, and its status told.
fn turned(i: usize, w: Version) -> Verdict
    ensures { Puts (turns w) i w.id result }
{
    let run = told::sides(w, sort::STATUS, 0, Lrn(0));
    Verdict {
        out: Outcome::Done,
        rows: Rows::Put(w, i),
        mail: Mail::One(run),
    }
}

// w at the place i of v, its status told if that changed, and its attributes.
fn restated(i: usize, v: Version, w: Version) -> Verdict
    ensures { Puts (accept (restated_told v w) (put w ∷ [])) i w.id result }
{
    let attributes = told::sides(w, sort::ATTRIBUTES, 0, w.new.lrn);
    if v.status == w.status {
        return Verdict {
            out: Outcome::Done,
            rows: Rows::Put(w, i),
            mail: Mail::One(attributes),
        };
    }
    let status = told::sides(w, sort::STATUS, 0, Lrn(0));
    Verdict {
        out: Outcome::Done,
        rows: Rows::Put(w, i),
        mail: Mail::Two(status, attributes),
    }
}

// w at place i, and the window notice to old.
fn marked(i: usize, w: Version) -> Verdict
    ensures { Puts (accept (window_told w) (put w ∷ [])) i w.id result }
{
    let run = told::side(w, w.old.provider, sort::WINDOW, 0, Lrn(0));
    Verdict {
        out: Outcome::Done,
        rows: Rows::Put(w, i),
        mail: Mail::One(run),
    }
}

// The window ran out for the version that was asked for.
fn window(e: Event, asked: Placed) -> Verdict
    ensures { Puts (window_runs e asked.version) asked.at asked.version.id result }
{
    if sides::window_marks(asked.version) {
        return marked(asked.at, sides::window_marked(e, asked.version));
    }
    turned(asked.at, sides::window_turned(e, asked.version))
}

// ---- broadcasts

// The live version that the close of w makes old, if any.
fn replaced(w: Version, lives: Option<Placed>) -> Option<Placed>
    ensures { result ≡ replaced_by w lives }
{
    if closing::is_open(w) {
        return None;
    }
    if closing::takes_over(w) {
        return lives;
    }
    None
}

// w open at place i, or closed, with the other live version made old.
fn settled(i: usize, w: Version, lives: Option<Placed>) -> Rows
    ensures { Settled i w lives result }
{
    let s = closing::settled(w);
    match replaced(w, lives) {
        Some(over) => Rows::PutTwo(s, i, closing::retired(w.stamp, over.version), over.at),
        None => Rows::Put(s, i),
    }
}

// w in a broadcast that starts: downloads, or all that its close brings.
fn cast(i: usize, w: Version, lives: Option<Placed>) -> Verdict
    requires { w.cast.purpose ≤ disconnect }
    ensures { Settles (broadcast_of w) i w.id lives result }
{
    let rows = settled(i, w, lives);
    let run = if closing::is_open(w) {
        told::download(w, To::Locals(w.cast.waiting))
    } else {
        told::close(w)
    };
    Verdict {
        out: Outcome::Done,
        rows,
        mail: Mail::One(run),
    }
}

// The modifies, the kinds that begin a broadcast, and purge.
fn plain(selected: u64, e: Event, asked: Placed, lives: Option<Placed>) -> Verdict
    requires purpose_le_disconnect { asked.version.cast.purpose ≤ disconnect }
    requires fact { (e.kind ≡ 6 → ⊥) × (e.kind ≡ 7 → ⊥) × (e.kind ≡ 8 → ⊥) × (e.kind ≡ 13 → ⊥) }
    ensures { Manages selected asked.at e asked.version lives result }
{
    let v = asked.version;
    if is_modify(e.kind) {
        return restated(asked.at, v, sides::modified(e, v));
    }
    if opening::is_broadcast(e.kind) {
        return cast(asked.at, opening::opened(selected, e, v), lives);
    }
    Verdict {
        out: Outcome::Done,
        rows: Rows::Strike(asked.at, v.id),
        mail: Mail::Silence,
    }
}

fn is_modify(kind: u8) -> bool
    ensures { result ≡ is_modify kind }
{
    (kind == kind::NEW_MODIFIES) | (kind == kind::OLD_MODIFIES)
}

// Kinds 3 to 10 and 13 to 15 for the version that was asked for; `selected` is whom a broadcast asks.
pub fn managed(selected: u64, e: Event, asked: Placed, lives: Option<Placed>) -> Verdict
    requires { asked.version.cast.purpose ≤ disconnect }
    ensures { Manages selected asked.at e asked.version lives result }
{
    let v = asked.version;
    match e.kind {
        kind::CANCEL => turned(asked.at, sides::cancelled(e, v)),
        kind::ACKNOWLEDGE_CANCEL => turned(asked.at, sides::acknowledged(e, v)),
        kind::RESOLVE_CONFLICT => turned(asked.at, sides::resolved(e, v)),
        kind::WINDOW_RAN_OUT => window(e, asked),
        _ => plain(selected, e, asked, lives),
    }
}

// ---- answers

// The download again if there is one, then what the close tells.
fn answer_mail(again: bool, p: u8, v: Version, w: Version) -> Mail
    requires { v.cast.purpose ≤ disconnect }
    ensures { messages_of result ≡ cond again (download_to v p ∷ []) [] ++ settling_told w }
{
    if again {
        let run = told::download(v, To::Local(p));
        if closing::is_open(w) {
            return Mail::One(run);
        }
        return Mail::Two(run, told::close(w));
    }
    if closing::is_open(w) {
        return Mail::Silence;
    }
    Mail::One(told::close(w))
}

// An awaited answer for the version that was asked for.
pub fn answered(most: u8, e: Event, asked: Placed, lives: Option<Placed>) -> Verdict
    requires most_le_most_retries { (most ≤ most_retries) × (asked.version.cast.purpose ≤ disconnect) }
    requires waits { Waits asked.version.cast (answering e) }
    ensures { Settles (answers most e asked.version) asked.at asked.version.id lives result }
{
    let v = asked.version;
    let w = answers::heard(most, e, v);
    let again = answers::again(most, e, v.cast);
    Verdict {
        out: Outcome::Done,
        rows: settled(asked.at, w, lives),
        mail: answer_mail(again, answers::answering(e), v, w),
    }
}

// ---- creates

// w as a fresh version: creation to old, new.
fn added(w: Version) -> Verdict
    ensures { Adds (accept (created_told w) (add w ∷ [])) w.id result }
{
    let run = told::sides(w, sort::CREATION, 0, Lrn(0));
    Verdict {
        out: Outcome::Done,
        rows: Rows::Add(w),
        mail: Mail::One(run),
    }
}

// A create: a fresh version, numbered one above the newest, or a concurrence with the worked one.
pub fn created(e: Event, last: u16, worked: Option<Placed>) -> Verdict
    requires { the_one worked ≡ none → last < last_number }
    ensures { Creates e last worked result }
{
    match worked {
        Some(p) => restated(p.at, p.version, sides::concurred(e, p.version)),
        None => added(sides::fresh(e, last + 1)),
    }
}
