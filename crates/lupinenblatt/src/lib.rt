// The calls for C: on bytes and numbers, each with a promise for every input. include/lupinenblatt.h tells them to C. [F4]
#![tactic(auto)]

ghost use Rattle.packing.specs.Layout.{read_event, Written};
ghost use Rattle.fields.specs.Calls.{event, Handed};

use model::limit;

pub mod fault;
pub mod run;
pub mod selected;
pub mod step;
pub mod version;

// R at most, as a word.
const MOST_RETRIES: u64 = limit::RETRIES as u64;

// Reads a record: its eleven fields to exactly eleven places, and 0; 2 where it is malformed or the places are not eleven, and nothing is
// written.
#[unsafe(no_mangle)]
pub extern "C" fn lupinenblatt_record_read(bytes: &[u8], fields: &mut [u64]) -> u8
    ensures { Handed (read_event bytes.now) fields.old fields.new result }
{
    fields::read(bytes, fields)
}

// Writes the record of eleven fields to 24 bytes, and 0; 2 where they are malformed, a number is too wide for its field, or the bytes are
// not 24, and nothing is written.
#[unsafe(no_mangle)]
pub extern "C" fn lupinenblatt_record_write(
    kind: u64,
    sender: u64,
    other: u64,
    mark: u64,
    cause: u64,
    tn: u64,
    lrn: u64,
    version: u64,
    time: u64,
    due: u64,
    within: u64,
    out: &mut [u8],
) -> u8
    ensures { Written (event kind sender other mark cause tn lrn version time due within) out.old out.new result }
{
    fields::write(
        kind, sender, other, mark, cause, tn, lrn, version, time, due, within, out,
    )
}
