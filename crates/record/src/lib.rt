// The event record: 24 bytes and its fields, both ways. [E1 to E6]
#![tactic(auto)]

ghost use Rattle.std.specs.Prelude.{◌≡◌};
ghost use Rattle.packing.specs.Layout.{read_event, told, Written};

use kinds::well_formed;
use model::{Event, Malformed};

// The size of a record in bytes. [E1]
pub const RECORD: usize = 24;

// The fields of a record of 24 bytes that is well formed.
pub fn read(s: &[u8]) -> Result<Event, Malformed>
    ensures { result ≡ read_event s.now }
{
    if s.len() != RECORD {
        return Err(Malformed);
    }
    let first = octets::u64_at(s, 0);
    let second = octets::u64_at(s, 8);
    let third = octets::u64_at(s, 16);
    if third % 8192 != 0 {
        return Err(Malformed);
    }
    let e = packing::unpack(first, second, third);
    if well_formed(e) {
        Ok(e)
    } else {
        Err(Malformed)
    }
}

// Writes the record of well-formed fields to 24 bytes; an error writes nothing.
pub fn write(e: Event, out: &mut [u8]) -> Result<(), Malformed>
    ensures { Written e out.old out.new (told result) }
{
    if out.len() != RECORD {
        return Err(Malformed);
    }
    if !well_formed(e) {
        return Err(Malformed);
    }
    let w = packing::pack(e);
    octets::put_u64(out, 0, w.first);
    octets::put_u64(out, 8, w.second);
    octets::put_u64(out, 16, w.third);
    Ok(())
}
