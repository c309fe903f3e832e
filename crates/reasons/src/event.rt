// The event record that is asked for. Its file is read through, a thousand records at a time.
use crate::question::{Asked, EVENTS, Question};
use crate::texts::Kind;
use model::{Event, Malformed, kind};
use program::{Program, Told, fill};
use record::RECORD;
use std::io::Read;

// So many records, and so many bytes, are read at once.
const RECORDS: u64 = 1024;

const CHUNK: usize = 24576;

fn of_record(program: Program<'_>, place: u64, e: Event) -> Result<Question, Told> {
    let kind = e.kind;
    match kind {
        // The kinds that start a broadcast.
        kind::ACTIVATE | kind::MODIFY_ACTIVE | kind::DISCONNECT | kind::RESEND => Ok(Question {
            tn: e.tn.0,
            event: Some(Asked {
                kind,
                version: e.version,
            }),
        }),
        _ => Err(program.say_of(
            EVENTS,
            format_args!(
                "the record at place {place} starts no broadcast: its kind is {kind}, {}",
                Kind(kind)
            ),
        )),
    }
}

fn of_bytes(program: Program<'_>, place: u64, bytes: &[u8]) -> Result<Question, Told> {
    let got = record::read(bytes);
    match got {
        Ok(e) => of_record(program, place, e),
        Err(Malformed) => Err(program.say_of(
            EVENTS,
            format_args!("the record at place {place} is malformed: docs/LAYOUTS.md has its form"),
        )),
    }
}

// The record of a file that has no other.
pub fn alone(program: Program<'_>) -> Result<Question, Told> {
    let mut bytes = [0u8; RECORD];
    let bytes = program.load(
        EVENTS,
        &mut bytes,
        "longer than one record of 24 bytes: a PLACE behind it says which",
    )?;
    if bytes.len() < RECORD {
        return Err(program.say_of(EVENTS, "shorter than a record of 24 bytes"));
    }
    of_bytes(program, 1, bytes)
}

// What a file has that ends too early: whole records, and bytes behind them.
#[derive(Clone, Copy)]
struct Short {
    records: u64,
    rest: usize,
}

impl Short {
    // A file that ends so many bytes behind so many turns of reading.
    fn after(turns: u64, bytes: usize) -> Short {
        Short {
            records: turns
                .wrapping_mul(RECORDS)
                .wrapping_add((bytes / RECORD) as u64),
            rest: bytes % RECORD,
        }
    }
}

// Reads past as much as is read at once; how many bytes there were.
fn pass(file: &mut impl Read) -> usize {
    let mut bytes = [0u8; CHUNK];
    let (Ok(n) | Err(n)) = fill(file, &mut bytes);
    n
}

// So many turns of reading past; an error where the file ends in one of them.
fn pass_all(file: &mut impl Read, turns: u64) -> Result<(), Short> {
    for turn in 0..turns {
        let got = pass(file);
        if got < CHUNK {
            return Err(Short::after(turn, got));
        }
    }
    Ok(())
}

// The record behind so many others; an error where the file ends before its end.
fn behind(file: &mut impl Read, before: u64) -> Result<[u8; RECORD], Short> {
    let turns = before / RECORDS;
    pass_all(file, turns)?;
    let mut bytes = [0u8; CHUNK];
    let (Ok(got) | Err(got)) = fill(file, &mut bytes);
    let from = (before % RECORDS) as usize * RECORD;
    let end = from + RECORD;
    if got < end {
        return Err(Short::after(turns, got));
    }
    let mut record = [0u8; RECORD];
    record.copy_from_slice(&bytes[from..end]);
    Ok(record)
}

fn say_short(program: Program<'_>, place: u64, short: Short) -> Told {
    let Short { records, rest } = short;
    if rest > 0 {
        program.say_of(
            EVENTS,
            format_args!("no place {place} in {records} records and {rest} bytes"),
        )
    } else {
        program.say_of(
            EVENTS,
            format_args!("no place {place} in {records} records"),
        )
    }
}

// The record at a place, counted from 1.
pub fn at(program: Program<'_>, place: u64) -> Result<Question, Told> {
    let mut file = program.open(EVENTS)?;
    match behind(&mut file, place.wrapping_sub(1)) {
        Ok(record) => of_bytes(program, place, &record),
        Err(short) => {
            program.end(&mut file, EVENTS, "grew while it was read")?;
            Err(say_short(program, place, short))
        }
    }
}
