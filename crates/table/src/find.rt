// The place of a name among the used rows, by halves.
ghost use Rattle.std.specs.Prelude.{◌≡◌, cond, ltb, ◌+◌, ◌*◌, ◌/◌, ◌≤◌, ◌<◌, length};
ghost use Rattle.words.specs.Size.{ROW};
ghost use Rattle.words.specs.Codec.{words_in};
ghost use Rattle.row.specs.Layout.{key_of};
ghost use Rattle.rows.specs.Place.{row_at};
ghost use Rattle.rows.specs.Table.{decode};
ghost use Rattle.scan.specs.Sound.{SoundTable};
ghost use Rattle.table.specs.Find.{key_at, keys_of, Rises, lower_of, place_in};

use crate::Table;
use model::{Id, Tn};
use words::ROW;

// The first word of row i, whose highest 50 bits are the key; nothing else is read.
pub fn head(t: &[u8], i: usize) -> u64
    requires { i * ROW + ROW ≤ length t.now }
    ensures { result ≡ (words_in (row_at t.now i)).head }
{
    let a = i * ROW;
    let e = a + ROW;
    octets::u64_at(&t[a..e], 0)
}

// 1 where the key of row i is below k, or 0; least is k at its place in a word's highest 63 bits. Without a branch, since either way is as
// likely.
fn below(t: &[u8], i: usize, k: u64, least: u64) -> usize
    requires { (i * ROW + ROW ≤ length t.now) × (least ≡ k * 8192) × (k < 1125899906842624) }
    ensures { result ≡ cond (ltb (key_at t.now i) k) 1 0 }
{
    let w = head(t, i);
    ((least + 0x7fff_ffff_ffff_ffff - w / 2) / 0x8000_0000_0000_0000) as usize
}

// The place of the first of n rows whose key is at least k, or n.
// Kept: the library's `partition_point` goes by a branch. The same code in C, by the kit's clang, takes over twice the time of this search
// at 1,000 rows, and half as much again at 10,000.
fn lower(t: &[u8], n: usize, k: u64) -> usize
    requires n_in_bounds { n * ROW ≤ length t.now }
    requires rises { Rises (keys_of n t.now) }
    requires k_bound { k < 1125899906842624 }
    ensures { result ≡ lower_of k (keys_of n t.now) }
{
    let least = k * 8192;
    let mut lo = 0;
    let mut left = n;
    while 1 < left {
        let half = left / 2;
        let up = below(t, lo + half - 1, k, least);
        lo += half * up;
        left -= half;
    }
    if left == 0 {
        return lo;
    }
    lo + below(t, lo, k, least)
}

// The place of the first used row from i on whose number is at least tn, or behind all.
pub fn reach(t: &Table, tn: u64, i: usize) -> usize
    requires { i ≤ place_in (tn * 65536 + 0) (decode t.now.bytes.now) }
    ensures { result ≡ place_in (tn * 65536 + 0) (decode t.now.bytes.now) }
{
    for at in i..t.used {
        if tn <= head(t.bytes, at) / 1073741824 {
            return at;
        }
    }
    t.used
}

// Where the versions of a number are: the first, and the place behind the last.
#[derive(Clone, Copy)]
pub struct Span {
    pub from: usize,
    pub to: usize,
}

// The versions of a number are few: the place behind them is found from the first on.
pub fn versions(t: &[u8], n: usize, tn: Tn) -> Span
    requires sound_table { SoundTable t.now n }
    requires tn_bound { tn.0 < 17179869184 }
    ensures { (result.from ≡ place_in (tn.0 * 65536) (decode t.now))
        × (result.to ≡ place_in ((tn.0 + 1) * 65536) (decode t.now)) }
{
    let from = lower(t, n, tn.0 * 65536);
    let to = reach(&Table { bytes: t, used: n }, tn.0 + 1, from);
    Span { from, to }
}

// Where the version of that name is, or would be.
pub fn place(t: &[u8], n: usize, k: Id) -> usize
    requires sound_table { SoundTable t.now n }
    requires tn_bound { k.tn.0 < 17179869184 }
    ensures { result ≡ place_in (key_of k) (decode t.now) }
{
    lower(t, n, k.tn.0 * 65536 + k.number as u64)
}
