// Replays a file of event records on a table, with a provider list, books and R, and writes outcomes, messages and the table after them.
// Thin over the engine: all that decides is `batch::run`, which is `engine::step` again and again.
#![tactic(auto)]

mod arguments;
mod events;
mod files;
mod parts;
mod summary;

ghost use Rattle.std.specs.Prelude.{◌≡◌, length};

use arguments::Argument;
use books::BOOK_BYTES;
use events::{Lent, Streams};
use files::{BOOKS_LONGER, PROVIDERS_LONGER, TABLE_LONGER};
use model::limit;
use parts::Outputs;
use program::{Program, Told};
use summary::Tally;
use words::ROW;

// Providers at most, and so bytes of a provider list.
const MOST_PROVIDERS: usize = limit::PROVIDERS as usize;
// Bytes of the largest table.
const TABLE_BYTES: usize = limit::ROWS * ROW;

// What is asked for: a replay, from an event's place on, or a check.
#[derive(Clone, Copy, PartialEq, Eq)]
enum Call {
    Replay,
    ReplayFrom,
    Check,
}

impl Call {
    // By how many arguments there are, and the first of them; none where the options are others.
    fn of(program: Program<'_>) -> Option<Call> {
        let first = program.named(1);
        let word = first.as_bytes();
        if program.has_just(8) {
            Some(Call::Replay)
        } else if program.has_just(10) && word == b"--from".as_slice() {
            Some(Call::ReplayFrom)
        } else if program.has_just(4) && word == b"--check".as_slice() {
            Some(Call::Check)
        } else {
            None
        }
    }

    // How many words stand before TABLE.
    fn options(self) -> usize {
        match self {
            Call::Replay => 0,
            Call::ReplayFrom => 2,
            Call::Check => 1,
        }
    }
}

// R.
fn retries(program: Program<'_>) -> Result<u8, Told> {
    let name = arguments::name(program, Argument::Retries);
    let text = name.as_bytes();
    let digit = if text.len() == 1 {
        decimal::digit(text[0])
    } else {
        None
    };
    match digit {
        Some(most) if most <= limit::RETRIES => Ok(most),
        _ => Err(program.say_of(Argument::Retries.place(), "R is not 0 to 7")),
    }
}

// The table's rows are sound; else an error, which is told.
fn table_fits(program: Program<'_>, table: &[u8]) -> Result<(), Told> {
    let place = Argument::Table.place();
    if table.len() % ROW != 0 {
        return Err(program.say_of(place, "the table is not whole rows of 80 bytes"));
    }
    if scan::verdict(table).is_none() {
        return Err(program.say_of(place, "the table is unsound: inspect says where"));
    }
    Ok(())
}

// Provider list and books are.
fn books_fit(program: Program<'_>, providers: &[u8], books: &[u8]) -> Result<(), Told> {
    let place = Argument::Books.place();
    let Some(marks) = providers::marks_of_bytes(providers) else {
        return Err(program.say_of(
            Argument::Providers.place(),
            "the provider list is unsound: inspect says where",
        ));
    };
    if books.len() != BOOK_BYTES {
        return Err(program.say_of(place, BOOKS_LONGER));
    }
    if !soundbooks::sound(marks, books) {
        return Err(program.say_of(place, "the books are unsound: inspect says where"));
    }
    Ok(())
}

// All three are, the table's lines too; what is not is told of each.
fn all_fit(program: Program<'_>, lent: &Lent<'_>) -> Result<(), Told> {
    let rows = table_fits(program, lent.table);
    let kept = books_fit(program, lent.providers, lent.books);
    rows?;
    kept?;
    let checked = checks::table_check(lent.table, lent.providers, lent.books);
    if checked.outcome != 0 {
        return Err(program.say_of(
            Argument::Table.place(),
            "the table is unsound with these books: inspect says where",
        ));
    }
    Ok(())
}

// Where all events are replayed, all outputs are whole then, and what was done is told.
fn settle(
    program: Program<'_>,
    done: Result<u64, Told>,
    o: Outputs,
    tally: &Tally,
    table: &[u8],
) -> Result<u64, Told> {
    let behind = done?;
    parts::settle_all(program, o, table)?;
    tally.say(program);
    if let Some(used) = scan::verdict(table) {
        program.tell(format_args!("rows used: {used} of {}", table.len() / ROW));
    }
    Ok(behind)
}

// Replays from an event's place on. The outputs get their names where all events are replayed, and a last line says so.
fn replay(program: Program<'_>, lent: &mut Lent<'_>, from: u64) -> Result<(), Told> {
    let input = program.open(Argument::Events.place())?;
    let whole = files::whole(&input);
    files::seek(program, &input, from, whole)?;
    let o = parts::make_all(program)?;
    let s = Streams {
        input: &input,
        whole,
        outcomes: &o.outcomes,
        messages: &o.messages,
    };
    let mut tally = Tally::new();
    let done = events::each(program, s, from, lent, &mut tally);
    match settle(program, done, o, &tally, lent.table) {
        Ok(behind) => {
            parts::end_all(program, Ok(()))?;
            program.tell(format_args!("{} events replayed", behind.wrapping_sub(from)));
            Ok(())
        }
        Err(told) => parts::end_all(program, Err(told)),
    }
}

// 4,096 free rows.
fn free_rows() -> [u8; TABLE_BYTES]
    ensures { 327680 ≡ length result }
{
    [0; TABLE_BYTES]
}

// Reads what is lent to each event, checks it before any file is written, and replays from an event's place on, or checks alone.
fn run(program: Program<'_>, most: u8, from: Option<u64>) -> Result<(), Told> {
    let mut table = free_rows();
    let mut providers = [0u8; MOST_PROVIDERS];
    let mut books = [0u8; BOOK_BYTES];
    let table = program.load(Argument::Table.place(), &mut table, TABLE_LONGER);
    let providers = program.load(
        Argument::Providers.place(),
        &mut providers,
        PROVIDERS_LONGER,
    );
    let books = program.load(Argument::Books.place(), &mut books, BOOKS_LONGER);
    let mut lent = Lent {
        table: table?,
        providers: providers?,
        books: books?,
        most,
    };
    all_fit(program, &lent)?;
    match from {
        Some(from) => replay(program, &mut lent, from),
        None => {
            if let Some(used) = scan::verdict(lent.table) {
                program.tell(format_args!("{used} of {} rows used, sound", lent.table.len() / ROW));
            }
            Ok(())
        }
    }
}

// A replay, where R is one and the outputs are files of their own.
fn run_from(program: Program<'_>, from: u64) -> Result<(), Told> {
    let most = retries(program)?;
    arguments::all_own(program)?;
    run(program, most, Some(from))
}

fn main(rt: HostRuntime) {
    let plain = Program::new(rt, "replay", 0);
    let Some(call) = Call::of(plain) else {
        say_usage(plain);
        return;
    };
    let program = Program::new(rt, "replay", call.options()).at_once();
    // No option stands where TABLE does.
    if arguments::name(program, Argument::Table)
        .as_bytes()
        .starts_with(b"--".as_slice())
    {
        say_usage(plain);
        return;
    }
    // The place behind '--from'; 1 without it.
    let from = match call {
        Call::Replay => Some(1),
        Call::ReplayFrom => decimal::number(plain.named(2).as_bytes()),
        Call::Check => None,
    };
    let _ = match (call, from) {
        (Call::Check, _) => run(program, 0, None),
        (_, Some(from)) => run_from(program, from),
        (_, None) => Err(plain.say("N is no place: the first event is at 1")),
    };
}

fn say_usage(program: Program<'_>) {
    program.say(
        "usage: replay [--from N] TABLE PROVIDERS BOOKS R EVENTS OUTCOMES MESSAGES TABLE-AFTER, \
        or replay --check TABLE PROVIDERS BOOKS",
    );
}
