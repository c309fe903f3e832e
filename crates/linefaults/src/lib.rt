// Where the lines of a sound table are unsound: the first row that breaks a clause with a row before it of its line, and the first clause
// that it breaks. docs/FAULTS.md has the numbers. It is asked where `lines` has said unsound, and goes over the rows before a row only
// where the row stands under the larger name of its line. [A3.5]
#![tactic(auto)]

ghost use Rattle.std.specs.Prelude.{◌≡◌, true, ◌+◌, ◌*◌, ◌≤◌, ◌<◌, length, ℕ, Bool, ◌&&◌, None};
ghost use Rattle.faults.specs.Faults.{first_broken};
ghost use Rattle.model.specs.declared.Version.{Version};
ghost use Rattle.model.specs.Books.{line_in, sound_splits};
ghost use Rattle.words.specs.Size.{ROW};
ghost use Rattle.row.specs.Layout.{unpack};
ghost use Rattle.rows.specs.Place.{row_at};
ghost use Rattle.rows.specs.Table.{decode};
ghost use Rattle.scan.specs.Sound.{SoundTable};
ghost use Rattle.books.specs.Packed.{book_bytes, splits_of};
ghost use Rattle.linefaults.specs.Clauses.{collide, under, rival_under, under_clauses, row_found, line_fault};

use books::Names;
use faults::{Fault, Found};
use model::{Version, status};

// The nearest row before row i that stands under one of the names and collides with v, from 1; 0 where none does.
fn rival<P: Fn(Version) -> bool>(
    t: &[u8],
    used: usize,
    names: Names,
    i: usize,
    v: Version,
    collides: P,
) -> u64
    requires sound_table { SoundTable t.now used }
    requires i_le_used { i ≤ used }
    requires always { P.IsAlwaysCallable collides }
    ensures { (n : ℕ) → ((u : Version) (b : _) → P.post collides u b → b ≡ collide n u v)
        → result ≡ rival_under n names.low.0 names.high.0 (decode t.now) v i }
{
    faults::nearest(
        i,
        |j|
            requires { (j * ROW + ROW ≤ length t.now) × P.IsAlwaysCallable collides }
            ensures { (b : Bool) × P.post collides (unpack (row_at t.entry.now j)) b
                × (result ≡ (under (unpack (row_at t.entry.now j)).id.tn.0 names.low.0 names.high.0 && b)) }
        {
            let u = rows::load(t, j);
            ((u.id.tn.0 == names.low.0) | (u.id.tn.0 == names.high.0)) & collides(u)
        },
    )
}

// Clauses 33 to 36, of v in row i, whose line has those names.
fn shared(t: &[u8], n: usize, names: Names, i: usize, v: Version) -> Option<Found>
    requires sound_table { SoundTable t.now n }
    requires i_le_n { i ≤ n }
    ensures { result ≡ first_broken (under_clauses names.low.0 names.high.0 (decode t.now) v i) None }
{
    let numbered = rival(t, n, names, i, v, |u| u.id.number == v.id.number);
    let worked = rival(
        t,
        n,
        names,
        i,
        v,
        |u| scan::join::is_worked(u.status) & scan::join::is_worked(v.status),
    );
    let sending = rival(
        t,
        n,
        names,
        i,
        v,
        |u| (u.status == status::SENDING) & (v.status == status::SENDING),
    );
    let live = rival(t, n, names, i, v, |u| u.live & v.live);
    let f = faults::once(36, numbered, None);
    let f = faults::once(35, worked, f);
    let f = faults::once(34, sending, f);
    faults::once(33, live, f)
}

// What row i breaks. Under the smaller name of its line it breaks nothing: the rows before it of its line have its TN, and each TN by
// itself is sound.
fn found(books: &[u8], t: &[u8], n: usize, i: usize) -> Option<Found>
    requires sound_table { SoundTable t.now n }
    requires books_len { (length books.now ≡ book_bytes) × (sound_splits (splits_of books.now) ≡ true) }
    requires i_lt_n { i < n }
    ensures { result ≡ row_found (line_in (splits_of books.now)) (decode t.now) i }
{
    let v = rows::load(t, i);
    let tn = v.id.tn;
    let names = books::line_names(books, tn);
    if tn.0 == names.low.0 {
        return None;
    }
    shared(t, n, names, i, v)
}

// Where the lines of a sound table are unsound, by the split pairs of sound books.
#[tactic(auto, unfolding(crate::specs::Clauses::line_fault))]
pub fn fault(books: &[u8], t: &[u8], n: usize) -> Option<Fault>
    requires sound_table { SoundTable t.now n }
    requires books_len { (length books.now ≡ book_bytes) × (sound_splits (splits_of books.now) ≡ true) }
    ensures { result ≡ line_fault (line_in (splits_of books.now)) (decode t.now) }
{
    faults::first(n, |i| found(books, t, n, i))
}
