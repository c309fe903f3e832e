// The arguments, and whether each output is a file of its own.
use program::{Name, Program, Told, Why};
use std::fmt::{Display, Formatter};
use std::{fmt, io};

// An argument, in the order of the call.
#[derive(Clone, Copy, PartialEq, Eq)]
pub enum Argument {
    Table,
    Providers,
    Books,
    Retries,
    Events,
    Outcomes,
    Messages,
    After,
}

impl Argument {
    // Its place behind the options, from 1.
    pub fn place(self) -> usize {
        match self {
            Argument::Table => 1,
            Argument::Providers => 2,
            Argument::Books => 3,
            Argument::Retries => 4,
            Argument::Events => 5,
            Argument::Outcomes => 6,
            Argument::Messages => 7,
            Argument::After => 8,
        }
    }
}

// Its title in the usage.
impl Display for Argument {
    fn fmt<W: fmt::Write>(&self, f: &mut Formatter<W>) -> fmt::Result {
        f.write_str(match *self {
            Argument::Table => "TABLE",
            Argument::Providers => "PROVIDERS",
            Argument::Books => "BOOKS",
            Argument::Retries => "R",
            Argument::Events => "EVENTS",
            Argument::Outcomes => "OUTCOMES",
            Argument::Messages => "MESSAGES",
            Argument::After => "TABLE-AFTER",
        })
    }
}

// The longest name that '.part' fits behind.
const MOST_NAME: usize = 4090;

pub fn name(program: Program<'_>, argument: Argument) -> Name {
    program.named(argument.place())
}

// The name of an output's part: where it is written until it is whole.
pub fn part(program: Program<'_>, output: Argument) -> Name {
    name(program, output).with(b".part").unwrap_or_default()
}

// A file could not be read or written: why.
pub fn fail(program: Program<'_>, argument: Argument, why: io::Error) -> Told {
    program.say(format_args!("{argument}: {}", Why::of(why)))
}

// Whether OUTCOMES is standard output.
pub fn is_stream(program: Program<'_>) -> bool {
    name(program, Argument::Outcomes).as_bytes() == b"-".as_slice()
}

// An output has another name than the other argument, and its part too; else an error, which is told. The table after may be the table.
fn apart(program: Program<'_>, output: Argument, other: Argument) -> Result<(), Told> {
    if output == other || other == Argument::Outcomes && is_stream(program) {
        return Ok(());
    }
    let path = name(program, other);
    let is_table = output == Argument::After && other == Argument::Table;
    if !is_table && name(program, output).as_bytes() == path.as_bytes() {
        return Err(program.say_of(
            other.place(),
            format_args!("{output} is the same file as {other}"),
        ));
    }
    if part(program, output).as_bytes() == path.as_bytes() {
        return Err(program.say_of(
            other.place(),
            format_args!("{output} is written here first, and it is {other}"),
        ));
    }
    Ok(())
}

// An output has a name that '.part' fits behind.
fn named(program: Program<'_>, output: Argument) -> Result<(), Told> {
    let path = name(program, output);
    let bytes = path.as_bytes().len();
    if bytes == 0 || bytes > MOST_NAME {
        return Err(program.say(format_args!("{output}: no name, or too long a name")));
    }
    Ok(())
}

// An output is a file of its own.
fn own(program: Program<'_>, output: Argument) -> Result<(), Told> {
    named(program, output)?;
    apart(program, output, Argument::Table)?;
    apart(program, output, Argument::Providers)?;
    apart(program, output, Argument::Books)?;
    apart(program, output, Argument::Events)?;
    apart(program, output, Argument::Outcomes)?;
    apart(program, output, Argument::Messages)?;
    apart(program, output, Argument::After)
}

// All outputs are; the first that is not is told.
pub fn all_own(program: Program<'_>) -> Result<(), Told> {
    if !is_stream(program) {
        own(program, Argument::Outcomes)?;
    }
    own(program, Argument::Messages)?;
    own(program, Argument::After)
}
