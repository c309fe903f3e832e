// The clauses that tie a row to those before it.
ghost use Rattle.std.specs.Prelude.{◌≡◌, ◌+◌, ◌*◌, ◌≤◌, ◌<◌, length, Bool, eqb, ◌&&◌};
ghost use Rattle.faults.specs.Faults.{first_broken, before};
ghost use Rattle.model.specs.declared.Version.{Version};
ghost use Rattle.words.specs.Size.{ROW};
ghost use Rattle.row.specs.Layout.{key_of};
ghost use Rattle.tablefaults.specs.Clauses.{free_at, form_clauses, beside_clauses, sinks, sharer, Tests, version_at};

use faults::Found;
use model::{Version, status};
use words::Words;

// The row right before row i is free.
fn behind_free(t: &[u8], i: usize) -> bool
    requires { i * ROW ≤ length t.now }
    ensures { result ≡ before (free_at t.now) i }
{
    if i == 0 {
        return false;
    }
    let w = rows::words(t, i - 1);
    words::blank(w)
}

// Clauses 3 and 4, of row i, whose words are w.
pub fn form(t: &[u8], i: usize, w: Words, rest: Option<Found>) -> Option<Found>
    requires { i * ROW ≤ length t.now }
    ensures { result ≡ first_broken (form_clauses t.now i w) rest }
{
    let f = faults::unless(row::spare_free(w), 4, 0, rest);
    faults::unless(!behind_free(t, i), 3, i as u64, f)
}

// A version's place in the table's order.
fn key(v: Version) -> u64
    requires { v.id.tn.0 < 17179869184 }
    ensures { result ≡ key_of v.id }
{
    v.id.tn.0 * 65536 + v.id.number as u64
}

// v, in row i, is not above the row right before it.
fn sinks(t: &[u8], i: usize, v: Version) -> bool
    requires { (i * ROW ≤ length t.now) × (v.id.tn.0 < 17179869184) }
    ensures { result ≡ before (sinks t.now v) i }
{
    if i == 0 {
        return false;
    }
    let u = rows::load(t, i - 1);
    key(v) <= key(u)
}

// The nearest row before row i of v's TN that has what v has, from 1; 0 where v has it not, or none does.
fn sharer<P: Fn(Version) -> bool>(t: &[u8], i: usize, v: Version, has: P) -> u64
    requires { (i * ROW ≤ length t.now) × P.IsAlwaysCallable has }
    ensures { (p : Version → Bool) → Tests (P.post has) p → result ≡ sharer p t.now i v }
{
    if !has(v) {
        return 0;
    }
    faults::nearest(
        i,
        |j|
            requires { (j * ROW + ROW ≤ length t.now) × P.IsAlwaysCallable has }
            ensures { (b : Bool) × P.post has (version_at t.entry.now j) b
                × (result ≡ (eqb (version_at t.entry.now j).id.tn.0 v.id.tn.0 && b)) }
        {
            let u = rows::load(t, j);
            (u.id.tn.0 == v.id.tn.0) & has(u)
        },
    )
}

// Clauses 28 to 31, of v in row i.
pub fn shared(t: &[u8], i: usize, v: Version, rest: Option<Found>) -> Option<Found>
    requires { (i * ROW ≤ length t.now) × (v.id.tn.0 < 17179869184) }
    ensures { result ≡ first_broken (beside_clauses t.now i v) rest }
{
    let f = faults::once(
        31,
        sharer(t, i, v, |u| scan::join::is_worked(u.status)),
        rest,
    );
    let f = faults::once(30, sharer(t, i, v, |u| u.status == status::SENDING), f);
    let f = faults::once(29, sharer(t, i, v, |u| u.live), f);
    faults::unless(!sinks(t, i, v), 28, i as u64, f)
}
