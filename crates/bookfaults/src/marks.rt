// The provider list, byte after byte. [B1]
ghost use Rattle.std.specs.Prelude.{◌≡◌, ◌<◌, length};
ghost use Rattle.bookfaults.specs.Clauses.{mark_found, providers_fault};

use faults::{Fault, Found};
use model::limit;

// The largest provider, as a number of bytes.
const PROVIDERS: usize = limit::PROVIDERS as usize;

// Clause 2, of byte i.
fn found(p: &[u8], i: usize) -> Option<Found>
    requires { i < length p.now }
    ensures { result ≡ mark_found p.now i }
{
    let b = p[i];
    let holds = (b == 0) | ((b == 1) | (b == 3));
    faults::unless(holds, 2, 0, None)
}

// Where any bytes are no sound provider list.
pub fn fault(p: &[u8]) -> Option<Fault>
    ensures { result ≡ providers_fault p.now }
{
    if PROVIDERS < p.len() {
        return Some(faults::whole(1));
    }
    faults::first(p.len(), |i| found(p, i))
}
