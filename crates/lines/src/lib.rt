// Whether the rows of each line may stand together, where two TNs that differ only by the codes of a split pair name one line. Only the
// first word of a row is read. [A3.5]
#![tactic(auto)]

ghost use Rattle.std.specs.Prelude.{◌≡◌, true, ◌+◌, ◌*◌, ◌≤◌, ◌<◌, length};
ghost use Rattle.model.specs.Books.{under_code, line_in, sound_splits};
ghost use Rattle.row.specs.Layout.{key_of};
ghost use Rattle.rows.specs.Table.{decode};
ghost use Rattle.scan.specs.Sound.{SoundTable};
ghost use Rattle.table.specs.Find.{place_in};
ghost use Rattle.table.specs.Survey.{version_at};
ghost use Rattle.books.specs.Packed.{book_bytes, splits_of};
ghost use Rattle.model.specs.Sound.{sound_lines};
ghost use Rattle.lines.specs.Pairs.{held_in, meet, bare, lacks, none_of, spares, fits, none_under, pair_fits};

use model::{Id, Tn, status};
use scan::join;
use table::{Table, find};

// What of a version its line may have once: that it is live, that it is sending, that it is worked.
#[derive(Clone, Copy)]
pub struct Held {
    pub live: bool,
    pub sends: bool,
    pub worked: bool,
}

fn held_of(w: u64) -> Held
    ensures { result ≡ held_in w }
{
    let status = (w / 1024 % 16) as u8;
    Held {
        live: w / 512 % 2 == 1,
        sends: status == status::SENDING,
        worked: join::is_worked(status),
    }
}

fn meets(a: Held, b: Held) -> bool
    ensures { result ≡ meet a b }
{
    (a.live & b.live) | ((a.sends & b.sends) | (a.worked & b.worked))
}

fn has_none(h: Held) -> bool
    ensures { result ≡ bare h }
{
    !(h.live | (h.sends | h.worked))
}

// Rows that are looked at one after the other before a search.
const NEAR: usize = 8;

// Where the version of that name is or would be, from a place not behind it on: most numbers have few versions, so it is near.
fn place_from(t: &Table, k: Id, from: usize) -> usize
    requires tn_bound { (k.tn.0 < 17179869184) × (from ≤ place_in (key_of k) (decode t.now.bytes.now)) }
    ensures { result ≡ place_in (key_of k) (decode t.now.bytes.now) }
{
    let key = k.tn.0 * 65536 + k.number as u64;
    let near = t.used.min(from + NEAR);
    for at in from..near {
        if key <= find::head(t.bytes, at) / 16384 {
            return at;
        }
    }
    if near < t.used {
        return find::place(t.bytes, t.used, k);
    }
    t.used
}

// Whether no version has that name, whose place is not before `from`.
fn absent(t: &Table, k: Id, from: usize) -> bool
    requires tn_bound { (k.tn.0 < 17179869184) × (from ≤ place_in (key_of k) (decode t.now.bytes.now)) }
    ensures { result ≡ lacks k (decode t.now.bytes.now) }
{
    let i = place_from(t, k, from);
    if i < t.used {
        return find::head(t.bytes, i) / 16384 != k.tn.0 * 65536 + k.number as u64;
    }
    true
}

// Whether no version is of the number whose first place is `at`.
fn nobody(t: &Table, tn: Tn, at: usize) -> bool
    requires at_value { at ≡ place_in (tn.0 * 65536 + 0) (decode t.now.bytes.now) }
    ensures { result ≡ none_of tn.0 (decode t.now.bytes.now) }
{
    if at < t.used {
        return find::head(t.bytes, at) / 1073741824 != tn.0;
    }
    true
}

// Whether no version of the number whose first place is `at` has what h has. Of another number at most three versions have any of it, so
// that its versions are gone through at most three times.
fn spared(t: &Table, tn: Tn, h: Held, at: usize) -> bool
    requires at_value { at ≡ place_in (tn.0 * 65536 + 0) (decode t.now.bytes.now) }
    ensures { result ≡ spares tn.0 h (decode t.now.bytes.now) }
{
    if has_none(h) {
        return true;
    }
    for i in at..t.used {
        let w = find::head(t.bytes, i);
        if w / 1073741824 != tn.0 {
            return true;
        }
        if meets(held_of(w), h) {
            return false;
        }
    }
    true
}

// Whether row i may stand in one line with the versions of its TN under the code c, whose first place is `at`.
fn row_fits(t: &Table, c: u64, i: usize, at: usize) -> bool
    requires c_bound { (c < 1000000) × (i < t.now.used) }
    requires at_value { at ≡ place_in (under_code c (version_at (decode t.now.bytes.now) i).id.tn.0 * 65536 + 0) (decode t.now.bytes.now) }
    ensures { result ≡ fits c (decode t.now.bytes.now) (version_at (decode t.now.bytes.now) i) }
{
    let w = find::head(t.bytes, i);
    let tn = Tn(c * 10000 + w / 1073741824 % 10000);
    if nobody(t, tn, at) {
        return true;
    }
    let number = (w / 16384 % 65536) as u16;
    if absent(t, Id { tn, number }, at) {
        return spared(t, tn, held_of(w), at);
    }
    false
}

// The place of the first row that stands under the code c or a larger one, or behind all.
fn first_under(t: &Table, c: u64) -> usize
    requires c_bound { c < 1000000 }
    ensures { result ≡ place_in (c * 10000 * 65536 + 0) (decode t.now.bytes.now) }
{
    let tn = Tn(c * 10000);
    find::place(t.bytes, t.used, Id { tn, number: 0 })
}

// Whether no row stands under the code c, whose first place is `at`.
fn unused(t: &Table, c: u64, at: usize) -> bool
    requires at_value { at ≡ place_in (c * 10000 * 65536 + 0) (decode t.now.bytes.now) }
    ensures { result ≡ none_under c (decode t.now.bytes.now) }
{
    if at < t.used {
        return find::head(t.bytes, at) / 1073741824 / 10000 != c;
    }
    true
}

// Whether each row under the code d may stand in one line with the rows under the code c: both are gone through once, side by side.
fn pair_fits(t: &Table, c: u64, d: u64) -> bool
    requires c_bound { (c < 1000000) × (d < 1000000) }
    ensures { result ≡ pair_fits c d (decode t.now.bytes.now) }
{
    let mut at = first_under(t, c);
    if unused(t, c, at) {
        return true;
    }
    for i in first_under(t, d)..t.used {
        let w = find::head(t.bytes, i);
        if w / 1073741824 / 10000 != d {
            return true;
        }
        let tn = c * 10000 + w / 1073741824 % 10000;
        at = find::reach(t, tn, at);
        if !row_fits(t, c, i, at) {
            return false;
        }
    }
    true
}

// Whether the rows of each line of a sound table may stand together, by the split pairs of sound books. A pair costs at most two searches
// and one pass over the rows under its codes. Where a line has rows under both, each under the second code costs a look at those under the
// first, up to its number and at most eight before a search, and one that is live, sending or worked a look at all of them. A row of no
// pair costs nothing. [A3.5]
pub fn sound(books: &[u8], t: &[u8], n: usize) -> bool
    requires sound_table { SoundTable t.now n }
    requires books_len { (length books.now ≡ book_bytes) × (sound_splits (splits_of books.now) ≡ true) }
    ensures { result ≡ sound_lines (line_in (splits_of books.now)) (decode t.now) }
{
    let table = Table { bytes: t, used: n };
    for i in 0..books::SPLIT_PLACES {
        let w = octets::u64_at(books, books::SPLITS_AT + 8 * i);
        if w == 0 {
            return true;
        }
        if !pair_fits(&table, w / 4294967296, w % 4294967296) {
            return false;
        }
    }
    true
}
