// What a verdict changes in a sound table: a version put over the one of its name, added, or struck out. Nothing else writes there.
ghost use Rattle.std.specs.Prelude.{◌≡◌, [], ◌∷◌, ◌<◌};
ghost use Rattle.model.specs.Table.{change, changes, put, add, strike};
ghost use Rattle.rows.specs.Table.{decode, encode};
ghost use Rattle.scan.specs.Sound.{rows_in, SoundTable};
ghost use Rattle.table.specs.Survey.{version_at};
ghost use Rattle.verdict.specs.Verdict.{changes_of};
ghost use Rattle.table.specs.Change.{Over, Fresh, Applicable};

use crate::find;
use model::Version;
use verdict::Rows;

// Row i, of v's name, becomes v's.
fn put_at(t: &mut [u8], n: usize, i: usize, v: Version)
    requires sound_table { SoundTable t.old n }
    requires over { Over (decode t.old) n i v }
    ensures { t.new ≡ encode (change (put v) (decode t.old)) (rows_in t.old) }
{
    rows::store(t, i, v);
}

// Row i, of v's name, becomes v's, and row j, of w's name, w's.
fn put_two(t: &mut [u8], n: usize, i: usize, v: Version, j: usize, w: Version)
    requires sound_table { SoundTable t.old n }
    requires over { Over (decode t.old) n i v × Over (decode t.old) n j w }
    ensures { t.new ≡ encode (changes (put v ∷ put w ∷ []) (decode t.old)) (rows_in t.old) }
{
    rows::store_two(t, i, v, j, w);
}

// v, whose name the table lacks, takes its place among the n used rows; a free row is used up.
fn add_new(t: &mut [u8], n: usize, v: Version)
    requires sound_table { SoundTable t.old n }
    requires fresh { Fresh (decode t.old) n (rows_in t.old) v }
    ensures { t.new ≡ encode (change (add v) (decode t.old)) (rows_in t.old) }
{
    let i = find::place(t, n, v.id);
    rows::insert(t, i, n, v);
}

// Row i is taken out, and later rows move up.
fn strike_at(t: &mut [u8], n: usize, i: usize)
    requires sound_table { SoundTable t.old n }
    requires i_lt_n { i < n }
    ensures { t.new ≡ encode (change (strike (version_at (decode t.old) i).id) (decode t.old))
        (rows_in t.old) }
{
    rows::remove(t, i, n - 1);
}

pub fn apply(t: &mut [u8], n: usize, rows: Rows)
    requires sound_table { SoundTable t.old n }
    requires applicable { Applicable (decode t.old) n (rows_in t.old) rows }
    ensures { t.new ≡ encode (changes (changes_of rows) (decode t.old)) (rows_in t.old) }
{
    match rows {
        Rows::Put(v, i) => {
            put_at(t, n, i, v);
        }
        Rows::PutTwo(v, i, w, j) => {
            put_two(t, n, i, v, j, w);
        }
        Rows::Add(v) => {
            add_new(t, n, v);
        }
        Rows::Strike(i, _) => {
            strike_at(t, n, i);
        }
        Rows::Nothing => {}
    }
}
