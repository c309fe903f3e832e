// Where a table is unsound: the first row that breaks a clause, and the first clause that it breaks. docs/FAULTS.md has the numbers. It is
// asked where the scan has said unsound, and goes for each row over those before it.
#![tactic(auto)]

ghost use Rattle.std.specs.Prelude.{◌≡◌, ◌+◌, ◌*◌, ◌/◌, ◌≤◌, length};
ghost use Rattle.std.specs.Prelude.{Option, Some, None};
ghost use Rattle.faults.specs.Faults.{first_broken, first_fault};
ghost use Rattle.words.specs.Size.{ROW};
ghost use Rattle.tablefaults.specs.Clauses.{range_clauses, side_clauses, cast_clauses, form_clauses, beside_clauses, words_at, version_at};
ghost use Rattle.tablefaults.specs.Clauses.{row_found, table_fault};

use faults::{Fault, Found};
use model::{Version, limit};
use words::{ROW, Words};

pub mod above;
pub mod alone;

// What row i breaks; a free row nothing.
fn found(t: &[u8], i: usize) -> Option<Found>
    requires { i * ROW + ROW ≤ length t.now }
    ensures { result ≡ row_found t.now i }
{
    let w = rows::words(t, i);
    if words::blank(w) {
        return None;
    }
    let v = row::version_of(w);
    let typed = alone::typed(v, None);
    let shared = above::shared(t, i, v, typed);
    let cast = alone::cast(v, shared);
    let sides = alone::sides(v, cast);
    let ranges = alone::ranges(v, sides);
    above::form(t, i, w, ranges)
}

// Where any bytes are no sound table.
#[tactic(auto, unfolding(crate::specs::Clauses::table_fault))]
pub fn fault(t: &[u8]) -> Option<Fault>
    ensures { result ≡ table_fault t.now }
{
    if t.len() % ROW != 0 {
        return Some(faults::whole(1));
    }
    if t.len() > limit::ROWS * ROW {
        return Some(faults::whole(2));
    }
    faults::first(t.len() / ROW, |i| found(t, i))
}
