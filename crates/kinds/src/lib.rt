// What a record's kind asks of its fields. [E2 to E5]
#![tactic(auto)]

ghost use Rattle.std.specs.Prelude.{◌≡◌};
ghost use Rattle.model.specs.Numbers.{ten_digits};
ghost use Rattle.model.specs.Record.{two_sides, authorizes as authorizes_with, new_creates, old_creates, new_modifies, old_modifies};
ghost use Rattle.model.specs.Record.{modifies_active, replies as replies_to, silent as silent_of, plainly as plainly_of, kind_fits};
ghost use Rattle.model.specs.Record.{fits_bits};
ghost use Rattle.model.specs.Record.{type_fits, sides_named, well_formed};

use model::{Event, Tn, kind, limit, mark};

// Ten digits, the first and the fourth of them 2 to 9: the last seven say 2,000,000 or more. [N1]
pub fn ten_digits(x: u64) -> bool
    ensures { result ≡ ten_digits x }
{
    (2_000_000_000 <= x) & (x < 10_000_000_000) & (2_000_000 <= x % 10_000_000)
}

pub fn is_tn(tn: Tn) -> bool
    ensures { result ≡ ten_digits tn.0 }
{
    ten_digits(tn.0)
}

fn two_sides(a: u8, b: u8) -> bool
    ensures { result ≡ two_sides a b }
{
    (0 < a) & (0 < b) & (a != b)
}

fn authorizes(mark: u8, cause: u8) -> bool
    ensures { result ≡ authorizes_with mark cause }
{
    ((mark == mark::YES) & (cause == 0))
        | ((mark == mark::NO) & (0 < cause) & (cause <= limit::CAUSE))
}

fn sides_named(e: Event) -> bool
    ensures { result ≡ sides_named e }
{
    if e.within == 1 {
        return (0 < e.sender) & (e.sender == e.other);
    }
    two_sides(e.sender, e.other)
}

fn new_creates(e: Event) -> bool
    ensures { result ≡ new_creates e }
{
    sides_named(e)
        & (e.mark == mark::NONE)
        & (e.cause == 0)
        & ten_digits(e.lrn.0)
        & (e.version == 0)
        & (0 < e.due)
}

fn old_creates(e: Event) -> bool
    ensures { result ≡ old_creates e }
{
    two_sides(e.sender, e.other)
        & authorizes(e.mark, e.cause)
        & (e.lrn.0 == 0)
        & (e.version == 0)
        & (0 < e.due)
}

fn new_modifies(e: Event) -> bool
    ensures { result ≡ new_modifies e }
{
    (e.other == 0)
        & (e.mark == mark::NONE)
        & (e.cause == 0)
        & ten_digits(e.lrn.0)
        & (0 < e.version)
        & (0 < e.due)
}

fn old_modifies(e: Event) -> bool
    ensures { result ≡ old_modifies e }
{
    (e.other == 0) & authorizes(e.mark, e.cause) & (e.lrn.0 == 0) & (0 < e.version) & (0 < e.due)
}

fn modifies_active(e: Event) -> bool
    ensures { result ≡ modifies_active e }
{
    (e.other == 0)
        & (e.mark == mark::NONE)
        & (e.cause == 0)
        & ten_digits(e.lrn.0)
        & (0 < e.version)
        & (e.due == 0)
}

fn replies(e: Event) -> bool
    ensures { result ≡ replies_to e }
{
    (0 < e.sender)
        & (e.other == 0)
        & ((e.mark == mark::YES) | (e.mark == mark::NO))
        & (e.cause == 0)
        & (e.lrn.0 == 0)
        & (0 < e.version)
        & (e.due == 0)
}

fn silent(e: Event) -> bool
    ensures { result ≡ silent_of e }
{
    (e.sender == 0)
        & (0 < e.other)
        & (e.mark == mark::NONE)
        & (e.cause == 0)
        & (e.lrn.0 == 0)
        & (0 < e.version)
        & (e.due == 0)
}

fn plainly(e: Event) -> bool
    ensures { result ≡ plainly_of e }
{
    (e.other == 0)
        & (e.mark == mark::NONE)
        & (e.cause == 0)
        & (e.lrn.0 == 0)
        & (0 < e.version)
        & (e.due == 0)
}

// The kind decides among fifteen cases. [F5]
fn kind_fits(e: Event) -> bool
    ensures { result ≡ kind_fits e }
{
    let kind = e.kind;
    match kind {
        kind::NEW_CREATES => new_creates(e),
        kind::OLD_CREATES => old_creates(e),
        kind::NEW_MODIFIES => new_modifies(e),
        kind::OLD_MODIFIES => old_modifies(e),
        kind::MODIFY_ACTIVE => modifies_active(e),
        kind::REPLY => replies(e),
        kind::SILENCE => silent(e),
        kind::ACTIVATE..=kind::RESOLVE_CONFLICT
        | kind::DISCONNECT
        | kind::WINDOW_RAN_OUT..=kind::LAST => plainly(e),
        _ => false,
    }
}

// The other fields fit their bits by their types.
fn fits_bits(e: Event) -> bool
    ensures { result ≡ fits_bits e }
{
    (e.sender < 64)
        & (e.other < 64)
        & (e.mark < 4)
        & (e.tn.0 < 0x4_0000_0000)
        & (e.lrn.0 < 0x4_0000_0000)
        & (e.within < 2)
}

// Kind 1 alone takes the version type.
fn type_fits(e: Event) -> bool
    ensures { result ≡ type_fits e }
{
    (e.within == 0) | (e.kind == kind::NEW_CREATES)
}

pub fn well_formed(e: Event) -> bool
    ensures { result ≡ well_formed e }
{
    fits_bits(e) & is_tn(e.tn) & (0 < e.time) & type_fits(e) & kind_fits(e)
}
