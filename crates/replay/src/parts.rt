// The outputs. Each is written to a part beside its name and gets its name when all of them are whole: OUTCOMES, MESSAGES, and last
// TABLE-AFTER. Until then, and after any failure, the files of before stand. '-' for OUTCOMES is standard output and has no part.
use crate::arguments;
use crate::arguments::{Argument, part};
use program::{Name, Program, Told, Why};
use std::fmt::Display;
use std::fs::{File, OpenOptions};
use std::io::{ErrorKind, Print, Stdout, Write};
use std::os::fd::AsRawFd;
use std::{fs, io};

// Standard output, by its name.
const STREAM: &str = "/dev/stdout";

// The descriptor of standard error.
const STDERR: i32 = 2;

// Where an output is written: standard output, or a part that this run has made.
#[derive(Drop)]
pub enum Output {
    Stream(Stdout),
    Part(File),
}

// The outputs of a run, the parts among them made by it.
#[derive(Drop)]
pub struct Outputs {
    pub outcomes: Output,
    pub messages: Output,
    pub after: Output,
}

impl Output {
    // Writes all of the bytes.
    pub fn put(&self, bytes: &[u8]) -> io::Result<()> {
        match self {
            Output::Stream(stdout) => Print::write_all(stdout, bytes),
            Output::Part(file) => {
                let mut to: &File = file;
                Write::write_all(&mut to, bytes)
            }
        }
    }

    // Writes a line.
    pub fn put_line<D: Display + Drop>(&self, text: D) -> io::Result<()> {
        match self {
            Output::Stream(stdout) => stdout.println(text),
            Output::Part(file) => {
                let mut to: &File = file;
                to.writeln(text)
            }
        }
    }
}

// A part could not be made: why.
fn say_unmade(program: Program<'_>, part: &Name, why: io::Error) -> Told {
    if why.kind() == ErrorKind::AlreadyExists {
        program.say_named(
            part.as_bytes(),
            "is there: another replay runs, or one was killed and it may be removed",
        )
    } else {
        program.say_named(part.as_bytes(), Why::of(why))
    }
}

// A file that is made anew.
fn made(rt: &HostRuntime, part: &Name) -> io::Result<File> {
    OpenOptions::new()
        .write(true)
        .create_new(true)
        .open(rt, part.text()?)
}

fn remove(rt: &HostRuntime, part: &Name) {
    if let Ok(part) = part.text() {
        let _ = fs::remove_file(rt, part);
    }
}

// Makes an output's part. A descriptor up to standard error's is for no file.
fn make(program: Program<'_>, output: Argument) -> Result<Output, Told> {
    let part = part(program, output);
    match made(&program.rt, &part) {
        Ok(file) if file.as_raw_fd() > STDERR => Ok(Output::Part(file)),
        Ok(_) => {
            remove(&program.rt, &part);
            Err(program.say("standard input, output or error is closed"))
        }
        Err(why) => Err(say_unmade(program, &part, why)),
    }
}

// Makes the part of OUTCOMES, where that is not standard output.
fn make_first(program: Program<'_>) -> Result<Output, Told> {
    if arguments::is_stream(program) {
        Ok(Output::Stream(program.rt.stdout()))
    } else {
        make(program, Argument::Outcomes)
    }
}

// Makes the parts, in this order, up to the first that cannot be made; none is left then.
pub fn make_all(program: Program<'_>) -> Result<Outputs, Told> {
    let outcomes = make_first(program)?;
    let messages = match make(program, Argument::Messages) {
        Ok(messages) => messages,
        Err(told) => {
            let _ = end_first(program, Err(told));
            return Err(told);
        }
    };
    let after = match make(program, Argument::After) {
        Ok(after) => after,
        Err(told) => {
            let _ = end_first(program, Err(told));
            let _ = end(program, Argument::Messages, Err(told));
            return Err(told);
        }
    };
    Ok(Outputs {
        outcomes,
        messages,
        after,
    })
}

// Standard output is closed where the program ends, and what then goes wrong nobody sees: so where it is a file, it is on the disk now.
fn sync_stream(rt: &HostRuntime) -> io::Result<()> {
    match fs::metadata(rt, STREAM) {
        Ok(there) if there.is_file() => {}
        _ => return Ok(()),
    }
    match OpenOptions::new().write(true).open(rt, STREAM) {
        Ok(file) => file.sync_all(),
        Err(_) => Ok(()),
    }
}

// An output is on the disk, or with whom reads it, and a part is closed.
fn sync(rt: &HostRuntime, out: Output) -> io::Result<()> {
    match out {
        Output::Stream(_) => sync_stream(rt),
        Output::Part(file) => file.sync_all(),
    }
}

// The same; where it is not, it is told why.
fn settle(program: Program<'_>, out: Output, output: Argument) -> Result<(), Told> {
    match sync(&program.rt, out) {
        Ok(()) => Ok(()),
        Err(why) => Err(arguments::fail(program, output, why)),
    }
}

// Writes the table, and all outputs are whole then.
pub fn settle_all(program: Program<'_>, o: Outputs, table: &[u8]) -> Result<(), Told> {
    let Outputs {
        outcomes,
        messages,
        after,
    } = o;
    if let Err(why) = after.put(table) {
        return Err(arguments::fail(program, Argument::After, why));
    }
    settle(program, outcomes, Argument::Outcomes)?;
    settle(program, messages, Argument::Messages)?;
    settle(program, after, Argument::After)
}

// Gives a part its output's name.
fn rename(rt: &HostRuntime, part: &Name, path: &Name) -> io::Result<()> {
    fs::rename(rt, part.text()?, path.text()?)
}

fn renamed(program: Program<'_>, part: &Name, output: Argument) -> Result<(), Told> {
    let path = arguments::name(program, output);
    match rename(&program.rt, part, &path) {
        Ok(()) => Ok(()),
        Err(why) => Err(arguments::fail(program, output, why)),
    }
}

// A part gets its name where all is well so far, else it is removed. Whether all is well still.
fn end(program: Program<'_>, output: Argument, so_far: Result<(), Told>) -> Result<(), Told> {
    let part = part(program, output);
    let still = match so_far {
        Ok(()) => renamed(program, &part, output),
        Err(told) => Err(told),
    };
    if still.is_err() {
        remove(&program.rt, &part);
    }
    still
}

// The same of OUTCOMES, which has no part where it is standard output.
fn end_first(program: Program<'_>, so_far: Result<(), Told>) -> Result<(), Told> {
    if arguments::is_stream(program) {
        return so_far;
    }
    end(program, Argument::Outcomes, so_far)
}

// Ends all parts, in this order.
pub fn end_all(program: Program<'_>, so_far: Result<(), Told>) -> Result<(), Told> {
    let first = end_first(program, so_far);
    let second = end(program, Argument::Messages, first);
    end(program, Argument::After, second)
}
