// The record and its eleven fields as numbers, both ways, for callers that have no structs. [E6]
#![tactic(auto)]

ghost use Rattle.std.specs.Prelude.{◌≡◌, length};
ghost use Rattle.model.specs.Record.{fits_bits};
ghost use Rattle.packing.specs.Layout.{eleven_of, read_event, told, Written};
ghost use Rattle.fields.specs.Calls.{event, event_in, FIELDS, Handed, Narrow};

use model::{Event, Lrn, Malformed, Tn};

// The places for a record's fields.
pub const FIELDS: usize = 11;

// The number that C is told: 0 done, 2 malformed.
fn number(said: Result<(), Malformed>) -> u8
    ensures { result ≡ told said }
{
    match said {
        Ok(()) => 0,
        Err(Malformed) => 2,
    }
}

// The eleven fields in the paper's order, to eleven places.
fn store(e: Event, fields: &mut [u64])
    requires { length fields.old ≡ FIELDS }
    ensures { fields.new ≡ eleven_of e }
{
    fields[0] = e.kind as u64;
    fields[1] = e.sender as u64;
    fields[2] = e.other as u64;
    fields[3] = e.mark as u64;
    fields[4] = e.cause as u64;
    fields[5] = e.tn.0;
    fields[6] = e.lrn.0;
    fields[7] = e.version as u64;
    fields[8] = e.time as u64;
    fields[9] = e.due as u64;
    fields[10] = e.within as u64;
}

// Reads a record to exactly eleven places; an error writes nothing.
fn hand(bytes: &[u8], fields: &mut [u64]) -> Result<(), Malformed>
    ensures { Handed (read_event bytes.now) fields.old fields.new (told result) }
{
    if fields.len() != FIELDS {
        return Err(Malformed);
    }
    let e = record::read(bytes)?;
    store(e, fields);
    Ok(())
}

// Reads a record: its eleven fields to exactly eleven places, and 0; 2 where it is malformed or the places are not eleven, and nothing is
// written.
pub fn read(bytes: &[u8], fields: &mut [u64]) -> u8
    ensures { Handed (read_event bytes.now) fields.old fields.new result }
{
    number(hand(bytes, fields))
}

// An event's fields, whatever numbers they are.
#[derive(Clone, Copy)]
struct Numbers {
    kind: u64,
    sender: u64,
    other: u64,
    mark: u64,
    cause: u64,
    tn: u64,
    lrn: u64,
    version: u64,
    time: u64,
    due: u64,
    within: u64,
}

impl Numbers {
    fn fits_bits(self) -> bool
        ensures { result ≡ fits_bits (event_in self) }
    {
        (self.kind < 0x100)
            & (self.sender < 64)
            & (self.other < 64)
            & (self.mark < 4)
            & (self.cause < 0x100)
            & (self.tn < 0x4_0000_0000)
            & (self.lrn < 0x4_0000_0000)
            & (self.version < 0x1_0000)
            & (self.time < 0x1_0000_0000)
            & (self.due < 0x1_0000_0000)
            & (self.within < 2)
    }

    fn narrowed(self) -> Event
        requires { Narrow self }
        ensures { result ≡ event_in self }
    {
        Event {
            kind: self.kind as u8,
            sender: self.sender as u8,
            other: self.other as u8,
            mark: self.mark as u8,
            cause: self.cause as u8,
            tn: Tn(self.tn),
            lrn: Lrn(self.lrn),
            version: self.version as u16,
            time: self.time as u32,
            due: self.due as u32,
            within: self.within as u8,
        }
    }

    // Writes their record to 24 bytes; an error writes nothing.
    fn write(self, out: &mut [u8]) -> Result<(), Malformed>
        ensures { Written (event_in self) out.old out.new (told result) }
    {
        if !self.fits_bits() {
            return Err(Malformed);
        }
        record::write(self.narrowed(), out)
    }
}

// Writes the record of eleven fields to 24 bytes, and 0; 2 where they are malformed, a number is too wide for its field, or the bytes are
// not 24, and nothing is written.
pub fn write(
    kind: u64,
    sender: u64,
    other: u64,
    mark: u64,
    cause: u64,
    tn: u64,
    lrn: u64,
    version: u64,
    time: u64,
    due: u64,
    within: u64,
    out: &mut [u8],
) -> u8
    ensures { Written (event kind sender other mark cause tn lrn version time due within) out.old out.new result }
{
    let numbers = Numbers {
        kind,
        sender,
        other,
        mark,
        cause,
        tn,
        lrn,
        version,
        time,
        due,
        within,
    };
    number(numbers.write(out))
}
