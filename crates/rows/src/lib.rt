// Rows of the table, by their place: read, written, put in between, taken out. Nothing is asked of the table but its length.
#![tactic(auto)]

ghost use Rattle.std.specs.Prelude.{◌≡◌, ◌+◌, ◌*◌, ◌≤◌, ◌<◌, length};
ghost use Rattle.words.specs.Size.{ROW};
ghost use Rattle.words.specs.Codec.{words_in, bytes_of, blank};
ghost use Rattle.row.specs.Layout.{InBits, pack, unpack};
ghost use Rattle.rows.specs.Place.{row_at, put_row, ins_row, del_row, moved_down, moved_up};

use model::Version;
use words::{ROW, Words};

// The ten words of row i.
pub fn words(t: &[u8], i: usize) -> Words
    requires { i * ROW + ROW ≤ length t.now }
    ensures { result ≡ words_in (row_at t.now i) }
{
    let a = i * ROW;
    let e = a + ROW;
    words::get(&t[a..e])
}

// The version in row i.
pub fn load(t: &[u8], i: usize) -> Version
    requires { i * ROW + ROW ≤ length t.now }
    ensures { result ≡ unpack (row_at t.now i) }
{
    let w = words(t, i);
    row::version_of(w)
}

fn put(t: &mut [u8], i: usize, w: Words)
    requires { i * ROW + ROW ≤ length t.old }
    ensures { t.new ≡ put_row t.old i (bytes_of w) }
{
    let a = i * ROW;
    let e = a + ROW;
    words::put(&mut t[a..e], w);
}

// Row i becomes v's.
pub fn store(t: &mut [u8], i: usize, v: Version)
    requires i_in_bounds { i * ROW + ROW ≤ length t.old }
    requires in_bits { InBits v }
    ensures { t.new ≡ put_row t.old i (pack v) }
{
    let w = row::words_of(v);
    put(t, i, w);
}

// Row i becomes v's, and then row j w's.
pub fn store_two(t: &mut [u8], i: usize, v: Version, j: usize, w: Version)
    requires i_in_bounds { (i * ROW + ROW ≤ length t.old) × (j * ROW + ROW ≤ length t.old) }
    requires in_bits { InBits v × InBits w }
    ensures { t.new ≡ put_row (put_row t.old i (pack v)) j (pack w) }
{
    store(t, i, v);
    store(t, j, w);
}

// Moves the bytes from a up to, not including, e by one row towards the end.
fn move_down(t: &mut [u8], a: usize, e: usize)
    requires { (a ≤ e) × (e + ROW ≤ length t.old) }
    ensures { t.new ≡ moved_down t.old a e }
{
    t.copy_within(a..e, a + ROW);
}

// Moves the bytes from a + ROW up to, not including, e + ROW by one row towards the start.
fn move_up(t: &mut [u8], a: usize, e: usize)
    requires { (a ≤ e) × (e + ROW ≤ length t.old) }
    ensures { t.new ≡ moved_up t.old a e }
{
    t.copy_within(a + ROW..e + ROW, a);
}

// Puts v in before row i of the n used ones; row n, a free one, is used up.
pub fn insert(t: &mut [u8], i: usize, n: usize, v: Version)
    requires i_le_n { (i ≤ n) × (n * ROW + ROW ≤ length t.old) }
    requires in_bits { InBits v }
    ensures { t.new ≡ ins_row t.old i n (pack v) }
{
    let a = i * ROW;
    let e = n * ROW;
    move_down(t, a, e);
    store(t, i, v);
}

// Takes row i out of the n + 1 used ones; row n becomes free.
pub fn remove(t: &mut [u8], i: usize, n: usize)
    requires { (i ≤ n) × (n * ROW + ROW ≤ length t.old) }
    ensures { t.new ≡ del_row t.old i n }
{
    let a = i * ROW;
    let e = n * ROW;
    move_up(t, a, e);
    put(t, n, words::none());
}
