// The rules: what an event is answered, decided from the facts of its number. No table and no tray is seen here.
#![tactic(auto)]

pub mod accepted;
pub mod told;

ghost use Rattle.std.specs.Prelude.{◌≡◌, true, false, ◌≤◌, Some};
ghost use Rattle.model.specs.Books.{most_retries};
ghost use Rattle.model.specs.Record.{is_create, is_answer, well_formed};
ghost use Rattle.model.proofs.SoundRows.{Row};
ghost use Rattle.rules.specs.Rules.{Kept, Decides, refused_by};

use model::{Event, Outcome, kind};
use table::survey::{Facts, Placed};
use verdict::{Mail, Rows, Verdict};

// What the books and the table say beside the versions: R, whether sender or other is not present, the owner of a create's code, whether a
// row is free, and whom a broadcast asks.
#[derive(Clone, Copy)]
pub struct Known {
    pub most: u8,
    pub absent: bool,
    pub owner: u8,
    pub free: bool,
    pub selected: u64,
}

fn refused(out: Outcome) -> Verdict
    ensures { result ≡ refused_by out }
{
    Verdict {
        out,
        rows: Rows::Nothing,
        mail: Mail::Silence,
    }
}

// Kinds 1 and 2.
fn on_create(e: Event, k: Known, f: Facts) -> Verdict
    requires { is_create e.kind ≡ true }
    ensures { Decides e k f result }
{
    if let Err(out) = judge::create(e, k.absent, k.owner, f, k.free) {
        return refused(out);
    }
    accepted::created(e, f.newest, f.worked)
}

// Kinds 11 and 12.
fn on_answer(e: Event, k: Known, f: Facts, asked: Placed) -> Verdict
    requires e_value { (well_formed e ≡ true) × (k.most ≤ most_retries) × Row asked.version }
    requires asked_value { (f.asked ≡ Some asked) × (is_answer e.kind ≡ true) }
    ensures { Decides e k f result }
{
    if let Err(out) = judge::answer(e, k.absent, asked.version) {
        return refused(out);
    }
    accepted::answered(k.most, e, asked, f.former)
}

// All other kinds.
fn on_other(e: Event, k: Known, f: Facts, asked: Placed) -> Verdict
    requires e_value { (well_formed e ≡ true) × Row asked.version }
    requires asked_value { (f.asked ≡ Some asked) × (is_create e.kind ≡ false) × (is_answer e.kind ≡ false) }
    ensures { Decides e k f result }
{
    if let Err(out) = judge::other(e, k.absent, f, asked.version) {
        return refused(out);
    }
    accepted::managed(k.selected, e, asked, f.former)
}

pub fn is_create(kind: u8) -> bool
    ensures { result ≡ is_create kind }
{
    (kind == kind::NEW_CREATES) | (kind == kind::OLD_CREATES)
}

fn is_answer(kind: u8) -> bool
    ensures { result ≡ is_answer kind }
{
    (kind == kind::REPLY) | (kind == kind::SILENCE)
}

// A well-formed event, over the facts of its number.
pub fn decide(e: Event, k: Known, f: Facts) -> Verdict
    requires e_value { (well_formed e ≡ true) × (k.most ≤ most_retries) }
    requires kept { is_create e.kind ≡ false → Kept f.asked }
    ensures { Decides e k f result }
{
    if is_create(e.kind) {
        return on_create(e, k, f);
    }
    let Some(asked) = f.asked else {
        return refused(judge::unknown(k.absent));
    };
    if is_answer(e.kind) {
        return on_answer(e, k, f, asked);
    }
    on_other(e, k, f, asked)
}
