// What a version's status, marks and purpose may be together: all clauses on them in one look.
ghost use Rattle.std.specs.Prelude.{◌≡◌, ◌≤◌, get_or};
ghost use Rattle.model.specs.Sound.{last_status, disconnect};
ghost use Rattle.sound.specs.Marks.{fit_bits, marks_fit};

use model::{Version, status};

// For each status the places that fit: purpose * 8 + live * 4 + new side created * 2 + old side created. A match is compiled to a table
// that stands in the program; a constant array would be made anew at each call.
fn places(status: u8) -> u64
    requires { status ≤ last_status }
    ensures { result ≡ get_or fit_bits status 0 }
{
    match status {
        status::PENDING => 0xe,
        status::CONFLICT => 0xa,
        status::CANCEL_PENDING => 0x8,
        status::SENDING => 0xc0c0_cc00,
        status::FAILED => 0xc00,
        status::PARTIAL_FAILURE => 0xc000,
        status::ACTIVE => 0xc0c0_c000,
        status::OLD => 0xc,
        status::CANCELED => 0xe,
        _ => 0,
    }
}

pub fn marks_fit(v: Version) -> bool
    requires { (v.status ≤ last_status) × (v.cast.purpose ≤ disconnect) }
    ensures { result ≡ marks_fit v }
{
    let places = places(v.status);
    let live = u8::from(v.live);
    let new = u8::from(v.new.created);
    let old = u8::from(v.old.created);
    let place = v.cast.purpose * 8 + live * 4 + new * 2 + old;
    (places >> place) % 2 == 1
}
