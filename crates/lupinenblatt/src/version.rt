// The library's version, for a caller that holds it against its header's.
ghost use Rattle.std.specs.Prelude.{◌≡◌};
ghost use Rattle.lupinenblatt.specs.Version.{version};

const MAJOR: u64 = 0;

const MINOR: u64 = 7;

const PATCH: u64 = 0;

// A million for each major, a thousand for each minor, one for each patch.
#[unsafe(no_mangle)]
pub extern "C" fn lupinenblatt_version() -> u64
    ensures { result ≡ version }
{
    1000000 * MAJOR + 1000 * MINOR + PATCH
}
