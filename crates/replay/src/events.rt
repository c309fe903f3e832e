// The events of the input, a thousand at a time: their lines, their messages, and the place behind the last, counted from 1.
ghost use Rattle.std.specs.Prelude.{◌≡◌, length};

use crate::arguments::Argument;
use crate::parts::Output;
use crate::summary::Tally;
use crate::{arguments, files};
use batch::Ran;
use model::limit;
use outcomes::Answer;
use program::{Program, Told, fill};
use record::RECORD;
use std::fs::File;
use std::io;
use tray::MESSAGE_SIZE;

// Bytes of the smallest tray.
const LEAST_TRAY: usize = limit::PLACES * MESSAGE_SIZE;
// So many events and again so many: a line of progress.
const PROGRESS: u64 = 10_000;

const MOST_EVENTS: u64 = 18_446_744_073_709_551_615;
// The most of which a hundredfold is a number of 64 bits.
const MOST_SHARED: u64 = 184_467_440_737_095_516;

// The events, how many there are where that is known, and what is written while they are replayed.
#[derive(Clone, Copy)]
pub struct Streams<'a> {
    pub input: &'a File,
    pub whole: Option<u64>,
    pub outcomes: &'a Output,
    pub messages: &'a Output,
}

// What is lent to each event: table, provider list, books and R.
#[derive(Drop)]
pub struct Lent<'a> {
    pub table: &'a mut [u8],
    pub providers: &'a [u8],
    pub books: &'a [u8],
    pub most: u8,
}

// How many hundredths n of the whole are.
fn share(n: u64, whole: u64) -> u64 {
    if n >= whole || n > MOST_SHARED {
        return 100;
    }
    n * 100 / whole
}

// The events from a place on, to the place behind, are done: a line where a multiple of PROGRESS is among them, with its share of the
// whole where that is known.
fn tell(program: Program<'_>, place: u64, behind: u64, whole: Option<u64>) {
    let n = behind.wrapping_sub(1) / PROGRESS;
    if n == place.wrapping_sub(1) / PROGRESS {
        return;
    }
    let done = n * PROGRESS;
    match whole {
        Some(whole) => program.tell(format_args!("{done} events, {} percent", share(done, whole))),
        None => program.tell(format_args!("{done} events")),
    }
}

// The line of an event: place from 1, outcome, message count. The place behind it.
fn put_event(program: Program<'_>, s: Streams<'_>, place: u64, a: Answer) -> Result<u64, Told> {
    match s
        .outcomes
        .put_line(format_args!("{place} {} {}", a.outcome, a.count))
    {
        Ok(()) => Ok(place.wrapping_add(1)),
        Err(why) => Err(arguments::fail(program, Argument::Outcomes, why)),
    }
}

// The answer to the i-th event of a run, which stands in two bytes.
fn answer_at(answers: &[u8], i: usize) -> Answer {
    if i >= answers.len() / 2 {
        return Answer {
            outcome: 0,
            count: 0,
        };
    }
    Answer {
        outcome: u64::from(answers[2 * i]),
        count: u64::from(answers[2 * i + 1]),
    }
}

// The lines of a run; the place behind its last event.
fn put_events(
    program: Program<'_>,
    s: Streams<'_>,
    first: u64,
    answers: &[u8],
    count: usize,
    tally: &mut Tally,
) -> Result<u64, Told> {
    let mut place = first;
    for i in 0..count {
        let a = answer_at(answers, i);
        tally.count(a.outcome);
        place = put_event(program, s, place, a)?;
    }
    Ok(place)
}

// The first `count` places of the tray.
fn put_messages(out: &Output, tray: &[u8], count: u64) -> io::Result<()> {
    match tray.get(..(count as usize).saturating_mul(MESSAGE_SIZE)) {
        Some(bytes) => out.put(bytes),
        None => Err(io::Error::from(io::ErrorKind::InvalidInput)),
    }
}

// So large that one run takes all records that were read: a run stops where fewer than 64 places are left.
fn empty_tray() -> [u8; 1572864]
    ensures { 1572864 ≡ length result }
{
    [0; 1572864]
}

// Whole records: their lines, and their messages. The place behind them.
fn run(
    program: Program<'_>,
    s: Streams<'_>,
    place: u64,
    lent: &mut Lent<'_>,
    events: &[u8],
    tally: &mut Tally,
) -> Result<u64, Told> {
    let mut tray = empty_tray();
    let mut answers = [0u8; 2048];
    let table = &mut *lent.table;
    let Ran {
        outcome: _,
        events: done,
        messages,
    } = batch::run(
        table,
        lent.providers,
        lent.books,
        lent.most,
        events,
        &mut tray,
        &mut answers,
    );
    let count = events.len() / RECORD;
    if done != count as u64 {
        return Err(program.say("refused what was checked"));
    }
    let behind = put_events(program, s, place, &answers, count, tally)?;
    match put_messages(s.messages, &tray, messages) {
        Ok(()) => Ok(behind),
        Err(why) => Err(arguments::fail(program, Argument::Messages, why)),
    }
}

// A part of a record at the end is an event too, and finds the 64 places that a step asks for. The place behind it.
fn rest(
    program: Program<'_>,
    s: Streams<'_>,
    place: u64,
    lent: &mut Lent<'_>,
    event: &[u8],
    tally: &mut Tally,
) -> Result<u64, Told> {
    if event.is_empty() {
        return Ok(place);
    }
    files::end(program, s.input)?;
    let mut tray = [0u8; LEAST_TRAY];
    let table = &mut *lent.table;
    let a = engine::step::step(
        table,
        lent.providers,
        lent.books,
        lent.most,
        event,
        &mut tray,
    );
    tally.count(a.outcome);
    program.say(format_args!(
        "the last {} bytes are no whole record: taken as one more event, refused with {}",
        event.len(),
        a.outcome
    ));
    put_event(program, s, place, a)
}

// The next events of the input; the place behind them, which is the same where the input ended.
fn next(
    program: Program<'_>,
    s: Streams<'_>,
    place: u64,
    lent: &mut Lent<'_>,
    tally: &mut Tally,
) -> Result<u64, Told> {
    let mut events = [0u8; 24576];
    let mut input = s.input;
    let (Ok(n) | Err(n)) = fill(&mut input, &mut events);
    let end = n - n % RECORD;
    let behind = run(program, s, place, lent, &events[..end], tally)?;
    rest(program, s, behind, lent, &events[end..n], tally)
}

// All events from the place on where the input stands, up to its end; the place behind the last, counted from 1.
pub fn each(
    program: Program<'_>,
    s: Streams<'_>,
    from: u64,
    lent: &mut Lent<'_>,
    tally: &mut Tally,
) -> Result<u64, Told> {
    let mut place = from;
    for _ in 0..MOST_EVENTS {
        let behind = next(program, s, place, lent, tally)?;
        if behind == place {
            break;
        }
        tell(program, place, behind, s.whole);
        place = behind;
    }
    files::end(program, s.input)?;
    Ok(place)
}
