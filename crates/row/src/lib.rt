// A version's fields in the bits of ten words, both ways.
#![tactic(auto)]

ghost use Rattle.std.specs.Prelude.{◌≡◌, [], ◌∷◌, ◌<◌};
ghost use Rattle.octets.specs.Fields.{join};
ghost use Rattle.row.specs.Layout.{head_widths, term_widths, pair_widths, id_of, new_of, old_of, cast_of, version_of, spareless};
ghost use Rattle.row.specs.Layout.{head_fields, term_fields, words_of, InBits};

use model::{Broadcast, Id, Lrn, NewSide, OldSide, Retries, Tn, Version};
use words::Words;

fn id_of(w: Words) -> Id
    ensures { result ≡ id_of w }
{
    Id {
        tn: Tn((w.head >> 30) % 17179869184),
        number: ((w.head >> 14) % 65536) as u16,
    }
}

fn new_of(w: Words) -> NewSide
    ensures { result ≡ new_of w }
{
    NewSide {
        provider: ((w.terms >> 24) % 64) as u8,
        created: (w.head >> 8) % 2 == 1,
        lrn: Lrn((w.terms >> 30) % 17179869184),
        due: ((w.dues >> 32) % 4294967296) as u32,
    }
}

fn old_of(w: Words) -> OldSide
    ensures { result ≡ old_of w }
{
    OldSide {
        provider: ((w.terms >> 18) % 64) as u8,
        created: (w.head >> 7) % 2 == 1,
        authorization: ((w.terms >> 16) % 4) as u8,
        cause: ((w.terms >> 9) % 128) as u8,
        due: ((w.dues >> 0) % 4294967296) as u32,
    }
}

fn cast_of(w: Words) -> Broadcast
    ensures { result ≡ cast_of w }
{
    Broadcast {
        purpose: ((w.terms >> 5) % 4) as u8,
        start: ((w.times >> 0) % 4294967296) as u32,
        confirmed: w.confirmed,
        waiting: w.waiting,
        failed: w.failed,
        retries: Retries {
            low: w.low,
            mid: w.mid,
            high: w.high,
        },
    }
}

// The version that the words say, whatever they are.
#[tactic(auto, unfolding(crate::specs::Layout::version_of))]
pub fn version_of(w: Words) -> Version
    ensures { result ≡ version_of w }
{
    Version {
        id: id_of(w),
        status: ((w.head >> 10) % 16) as u8,
        stamp: ((w.times >> 32) % 4294967296) as u32,
        live: (w.head >> 9) % 2 == 1,
        new: new_of(w),
        old: old_of(w),
        canceller: ((w.terms >> 7) % 4) as u8,
        window: (w.head >> 6) % 2 == 1,
        within: (w.head >> 5) % 2 == 1,
        cast: cast_of(w),
    }
}

// Whether the spare bits are zero.
#[tactic(auto, unfolding(crate::specs::Layout::spareless))]
pub fn spare_free(w: Words) -> bool
    ensures { result ≡ spareless w }
{
    ((w.head >> 0) % 32 == 0) & ((w.terms >> 0) % 32 == 0)
}

fn head_of(v: Version) -> u64
    requires { InBits v }
    ensures { result ≡ join head_widths (head_fields v) }
{
    let live = u64::from(v.live);
    let new = u64::from(v.new.created);
    let old = u64::from(v.old.created);
    let window = u64::from(v.window);
    let within = u64::from(v.within);
    let marks = (((live * 2 + new) * 2 + old) * 2 + window) * 2 + within;
    let id = v.id.tn.0 * 65536 + v.id.number as u64;
    ((id * 16 + v.status as u64) * 32 + marks) * 32
}

fn terms_of(v: Version) -> u64
    requires { InBits v }
    ensures { result ≡ join term_widths (term_fields v) }
{
    let low = ((v.old.cause as u64) * 4 + v.canceller as u64) * 4 + v.cast.purpose as u64;
    let mid = ((v.new.provider as u64) * 64 + v.old.provider as u64) * 4
        + v.old.authorization as u64;
    (v.new.lrn.0 * 16384 + mid) * 65536 + low * 32
}

fn pair_of(a: u32, b: u32) -> u64
    ensures { result ≡ join pair_widths (a ∷ b ∷ []) }
{
    (a as u64) * 4294967296 + b as u64
}

// The words of a version whose fields have room in their bits.
#[tactic(auto, unfolding(crate::specs::Layout::words_of))]
pub fn words_of(v: Version) -> Words
    requires { InBits v }
    ensures { result ≡ words_of v }
{
    Words {
        head: head_of(v),
        terms: terms_of(v),
        dues: pair_of(v.new.due, v.old.due),
        times: pair_of(v.stamp, v.cast.start),
        confirmed: v.cast.confirmed,
        waiting: v.cast.waiting,
        failed: v.cast.failed,
        low: v.cast.retries.low,
        mid: v.cast.retries.mid,
        high: v.cast.retries.high,
    }
}
