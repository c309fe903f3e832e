// The grid of standing and status: 9 statuses by 11 kinds by 3 standings. [G2, F3]
#![tactic(auto)]

ghost use Rattle.std.specs.Prelude.{◌≡◌, true, ◌<◌, ◌≤◌};
ghost use Rattle.model.specs.Sound.{last_status};
ghost use Rattle.model.specs.Standing.{grid_rule, grid_kinds, grid_place, is_grid_kind};

use model::{kind, standing};

// The kinds that the grid has.
const KINDS: usize = 11;

// Entry (status * KINDS + place of the kind) * 3 + standing.
const GRID: [u8; 297] = [
    0, 6, 6, 6, 0, 6, 0, 6, 6, 0, 0, 6, 7, 7, 6, 7, 7, 6, 7, 6, 6, 7, 6, 6, 6, 6, 0, 6, 6, 7, 6, 6,
    7, 0, 6, 6, 6, 0, 6, 7, 6, 6, 0, 0, 6, 7, 7, 6, 0, 0, 6, 7, 6, 6, 7, 6, 6, 6, 6, 7, 6, 6, 7, 6,
    6, 7, 7, 6, 6, 6, 7, 6, 7, 6, 6, 7, 7, 6, 0, 0, 6, 7, 7, 6, 7, 6, 6, 7, 6, 6, 6, 6, 0, 6, 6, 7,
    6, 6, 7, 7, 6, 6, 6, 7, 6, 7, 6, 6, 7, 7, 6, 7, 7, 6, 7, 7, 6, 7, 6, 6, 7, 6, 6, 6, 6, 7, 6, 6,
    7, 6, 6, 7, 7, 6, 6, 6, 7, 6, 7, 6, 6, 7, 7, 6, 7, 7, 6, 7, 7, 6, 7, 6, 6, 7, 6, 6, 6, 6, 7, 6,
    6, 0, 6, 6, 7, 7, 6, 6, 6, 7, 6, 7, 6, 6, 7, 7, 6, 7, 7, 6, 7, 7, 6, 7, 6, 6, 7, 6, 6, 6, 6, 7,
    6, 6, 0, 6, 6, 7, 7, 6, 6, 6, 7, 6, 7, 6, 6, 7, 7, 6, 7, 7, 6, 7, 7, 6, 0, 6, 6, 0, 6, 6, 6, 6,
    7, 6, 6, 0, 6, 6, 7, 7, 6, 6, 6, 7, 6, 7, 6, 6, 7, 7, 6, 7, 7, 6, 7, 7, 6, 7, 6, 6, 7, 6, 6, 6,
    6, 7, 6, 6, 7, 6, 6, 0, 7, 6, 6, 6, 7, 6, 7, 6, 6, 7, 7, 6, 7, 7, 6, 7, 7, 6, 7, 6, 6, 7, 6, 6,
    6, 6, 7, 6, 6, 7, 6, 6, 0,
];

// The place of a kind among the eleven: 3 to 10, then 13 to 15.
fn place_of(kind: u8) -> usize
    requires { is_grid_kind kind ≡ true }
    ensures { (result ≡ grid_place kind) × (result < grid_kinds) }
{
    if kind < kind::REPLY {
        (kind - kind::NEW_MODIFIES) as usize
    } else {
        (kind - 5) as usize
    }
}

// What the grid says: 0, 6 or 7. Standing 0 is the new side, 1 the old side, 2 the NPAC; any other gets 6.
pub fn grid(status: u8, kind: u8, standing: u8) -> u8
    requires { (status ≤ last_status) × (is_grid_kind kind ≡ true) }
    ensures { result ≡ grid_rule status kind standing }
{
    if standing::OTHER <= standing {
        return 6;
    }
    let place = place_of(kind);
    let at = ((status as usize) * KINDS + place) * 3 + standing as usize;
    GRID[at]
}
