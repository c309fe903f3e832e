// The file of events: how many there are, and standing before one of them.
use crate::arguments;
use crate::arguments::Argument;
use program::{Program, Told};
use std::fs::File;
use std::io::{Seek, SeekFrom};

// What is said of an input that is longer than it may be, of the books also where they are shorter.
pub const TABLE_LONGER: &str = "the table has more than 4,096 rows";

pub const PROVIDERS_LONGER: &str = "the provider list has more than 63 bytes";

pub const BOOKS_LONGER: &str = "the books are not 8,712 bytes";

pub const EVENTS_LONGER: &str = "grew while it was read";

// The size of a record, as a word.
const RECORD: u64 = record::RECORD as u64;
// More events than a file has.
const MOST_EVENTS: u64 = 384_307_168_202_282_325;

// How many events there are, where it stands at their end then: a part of a record at the end is one more. None where it has no bytes to
// seek in, as a pipe.
pub fn whole(mut input: &File) -> Option<u64> {
    match input.seek(SeekFrom::End(0)) {
        Ok(bytes) if bytes > 0 => Some(bytes.div_ceil(RECORD)),
        _ => None,
    }
}

// Stands before the event at place `from`, of the whole; it may be the place behind the last. What cannot be sought in, as a pipe, has no
// known whole and is read from its start alone.
pub fn seek(
    program: Program<'_>,
    mut input: &File,
    from: u64,
    whole: Option<u64>,
) -> Result<(), Told> {
    let before = from.wrapping_sub(1);
    if before <= MOST_EVENTS {
        if let Err(why) = input.seek(SeekFrom::Start(before * RECORD)) {
            if before > 0 || whole.is_some() {
                return Err(arguments::fail(program, Argument::Events, why));
            }
        }
    }
    let known = whole.unwrap_or(0);
    if before > known {
        return Err(program.say(format_args!("EVENTS: no place {from} in {known} events")));
    }
    Ok(())
}

// The input ends here.
pub fn end(program: Program<'_>, mut input: &File) -> Result<(), Told> {
    program.end(&mut input, Argument::Events.place(), EVENTS_LONGER)
}
