// Whether a version is sound: each clause of document 01, or some together, as a function that answers exactly the model's definition.
#![tactic(auto)]

ghost use Rattle.std.specs.Prelude.{◌≡◌};
ghost use Rattle.model.specs.Sound.{sound_version};
ghost use Rattle.sound.specs.Order.{shape_fits};

use model::Version;

pub mod cast;
pub mod marks;
pub mod ranges;
pub mod sides;

// All but the broadcast.
fn shape_fits(v: Version) -> bool
    ensures { result ≡ shape_fits v }
{
    if !ranges::outline_fits(v) {
        return false;
    }
    if !marks::marks_fit(v) {
        return false;
    }
    sides::sides_fit(v)
}

pub fn sound_version(v: Version) -> bool
    ensures { result ≡ sound_version v }
{
    if !shape_fits(v) {
        return false;
    }
    cast::cast_fits(v)
}
