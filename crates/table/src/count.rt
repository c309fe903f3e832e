// How many rows of a sound table are used, seen from a place near the last of them.
ghost use Rattle.std.specs.Prelude.{◌≡◌, ◌+◌, ◌*◌, ◌≤◌, ◌<◌, length};
ghost use Rattle.words.specs.Size.{ROW};
ghost use Rattle.words.specs.Codec.{words_in, is_blank};
ghost use Rattle.rows.specs.Place.{row_at};
ghost use Rattle.rows.specs.Table.{decode};
ghost use Rattle.scan.specs.Sound.{SoundTable, rows_in};

use words::ROW;

fn free(t: &[u8], i: usize) -> bool
    requires { i * ROW + ROW ≤ length t.now }
    ensures { result ≡ is_blank (words_in (row_at t.now i)) }
{
    let w = rows::words(t, i);
    words::blank(w)
}

// The first free row from a place on, or the number of rows.
fn upward(t: &[u8], from: usize) -> usize
    requires { SoundTable t.now (length (decode t.now)) × (from ≤ rows_in t.now) }
    ensures { (length (decode t.now) ≤ result) × (result ≤ rows_in t.now) }
{
    let rows = t.len() / ROW;
    for n in from..rows {
        if free(t, n) {
            return n;
        }
    }
    rows
}

// The used rows, where all rows from a place on are free.
fn downward(t: &[u8], from: usize) -> usize
    requires { SoundTable t.now (length (decode t.now)) × (length (decode t.now) ≤ from) × (from ≤ rows_in t.now) }
    ensures { result ≡ length (decode t.now) }
{
    for n in (0..from).rev() {
        if !free(t, n) {
            return n + 1;
        }
    }
    0
}

// How many rows are used: a few rows near the place are read where few rows came or went.
pub fn used(t: &[u8], near: usize) -> usize
    requires { SoundTable t.now (length (decode t.now)) × (near ≤ rows_in t.now) }
    ensures { result ≡ length (decode t.now) }
{
    let n = upward(t, near);
    downward(t, n)
}
