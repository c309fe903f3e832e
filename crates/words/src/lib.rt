// Ten words in a slice of ROW bytes.
#![tactic(auto)]

ghost use Rattle.std.specs.Prelude.{◌≡◌, [], ◌∷◌, ◌+◌, ◌≤◌, length};
ghost use Rattle.words.specs.Size.{ROW};
ghost use Rattle.words.specs.Codec.{words_in, bytes_of, stored, is_blank, no_words};

// The size of a row in bytes.
pub const ROW: usize = 80;

// The ten words of a row, every bit kept.
#[derive(Clone, Copy, PartialEq, Eq, Default)]
pub struct Words {
    // TN, number, status, live, new side created, old side created, window run out.
    pub head: u64,
    // LRN, new and old provider, authorization, cause, canceller, purpose.
    pub terms: u64,
    // New due, old due.
    pub dues: u64,
    // Stamp, broadcast start.
    pub times: u64,
    pub confirmed: u64,
    pub waiting: u64,
    pub failed: u64,
    // Retries used.
    pub low: u64,
    pub mid: u64,
    pub high: u64,
}

#[tactic(auto, unfolding(crate::specs::Codec::words_in))]
pub fn get(b: &[u8]) -> Words
    requires { length b.now ≡ ROW }
    ensures { result ≡ words_in b.now }
{
    Words {
        head: octets::u64_at(b, 0),
        terms: octets::u64_at(b, 8),
        dues: octets::u64_at(b, 16),
        times: octets::u64_at(b, 24),
        confirmed: octets::u64_at(b, 32),
        waiting: octets::u64_at(b, 40),
        failed: octets::u64_at(b, 48),
        low: octets::u64_at(b, 56),
        mid: octets::u64_at(b, 64),
        high: octets::u64_at(b, 72),
    }
}

// Five words, one after the other from `at`.
fn put_five(b: &mut [u8], at: usize, v: u64, w: u64, x: u64, y: u64, z: u64)
    requires { at + 40 ≤ length b.old }
    ensures { b.new ≡ stored b.old at (v ∷ w ∷ x ∷ y ∷ z ∷ []) }
{
    octets::put_u64(b, at, v);
    octets::put_u64(b, at + 8, w);
    octets::put_u64(b, at + 16, x);
    octets::put_u64(b, at + 24, y);
    octets::put_u64(b, at + 32, z);
}

pub fn put(b: &mut [u8], w: Words)
    requires { length b.old ≡ ROW }
    ensures { b.new ≡ bytes_of w }
{
    put_five(b, 0, w.head, w.terms, w.dues, w.times, w.confirmed);
    put_five(b, 40, w.waiting, w.failed, w.low, w.mid, w.high);
}

// Whether all bits are zero, as in a free row.
pub fn blank(w: Words) -> bool
    ensures { result ≡ is_blank w }
{
    w == Words::default()
}

// The words of a free row.
pub fn none() -> Words
    ensures { result ≡ no_words }
{
    Words::default()
}
