// The soundness of a table: each row by itself, the order of the used ones, and nothing but zeros after them. One pass.
#![tactic(auto)]

ghost use Rattle.std.specs.Prelude.{◌≡◌, ◌+◌, ◌*◌, ◌≤◌, ◌<◌, length, drop};
ghost use Rattle.model.specs.Sound.{most_rows};
ghost use Rattle.words.specs.Size.{ROW};
ghost use Rattle.words.specs.Codec.{words_in, is_blank};
ghost use Rattle.rows.specs.Place.{row_at};
ghost use Rattle.rows.specs.Table.{pieces_of};
ghost use Rattle.scan.specs.Join.{start};
ghost use Rattle.scan.specs.Carried.{group_of, joined_by, Few};
ghost use Rattle.scan.specs.Sound.{Open, Ended, admit_of, scan_rows, said_by, soundness_of};

use crate::join::Bits;
use model::limit;
use words::{ROW, Words};

pub mod join;

// A row that is not free.
fn admit(s: Bits, w: Words) -> Option<Bits>
    requires { s.had < 8 }
    ensures { (joined_by result ≡ admit_of (group_of s) w) × Few result }
{
    if row::spare_free(w) {
        let v = row::version_of(w);
        if sound::sound_version(v) {
            return join::follow(s, v);
        }
    }
    None
}

// Whether a row's bytes are all zero. Only compared with zero, its words are read many at a time.
fn zeros(b: &[u8]) -> bool
    requires { length b.now ≡ ROW }
    ensures { result ≡ is_blank (words_in b.now) }
{
    (octets::u64_at(b, 0) == 0)
        & (octets::u64_at(b, 8) == 0)
        & (octets::u64_at(b, 16) == 0)
        & (octets::u64_at(b, 24) == 0)
        & (octets::u64_at(b, 32) == 0)
        & (octets::u64_at(b, 40) == 0)
        & (octets::u64_at(b, 48) == 0)
        & (octets::u64_at(b, 56) == 0)
        & (octets::u64_at(b, 64) == 0)
        & (octets::u64_at(b, 72) == 0)
}

// Whether row i is free.
fn free(t: &[u8], i: usize) -> bool
    requires { i * ROW + ROW ≤ length t.now }
    ensures { result ≡ is_blank (words_in (row_at t.now i)) }
{
    let a = i * ROW;
    let e = a + ROW;
    zeros(&t[a..e])
}

// After so many used rows: all others are free, or the table is unsound.
fn ended(t: &[u8], used: usize) -> Option<usize>
    ensures { result ≡ said_by (scan_rows (Ended used) (drop used (pieces_of t.now))) }
{
    for i in used..t.len() / ROW {
        if !free(t, i) {
            return None;
        }
    }
    Some(used)
}

// The used rows, up to the first that is free or unsound. A row whose first word is 0 is no used one.
fn over(t: &[u8]) -> Option<usize>
    requires { length t.now ≤ most_rows * ROW }
    ensures { result ≡ said_by (scan_rows (Open 0 start) (pieces_of t.now)) }
{
    let n = t.len() / ROW;
    let mut s = Bits::default();
    for i in 0..n {
        let w = rows::words(t, i);
        if w.head == 0 {
            return ended(t, i);
        }
        s = admit(s, w)?;
    }
    Some(n)
}

// How many rows of a sound table are used. Any bytes may be lent: of those of no sound table there is no such number.
pub fn verdict(t: &[u8]) -> Option<usize>
    ensures { result ≡ soundness_of t.now }
{
    if t.len() % ROW == 0 {
        if t.len() <= limit::ROWS * ROW {
            return over(t);
        }
    }
    None
}
