// What the programs share: the names that the arguments are, the files that these name, and what is said on standard error.
#![tactic(auto)]

mod names;
mod why;

pub use names::Name;
pub use reading::fill;
use std::env::{Env, FillError};
use std::fmt::Display;
use std::fs::File;
use std::io::{Eprint, Print, Read};
use std::{fs, io};
pub use why::Why;

// A failure that standard error has been told of.
#[derive(Clone, Copy, PartialEq, Eq)]
pub struct Told;

// A program that runs. Its name begins each line of an error; its arguments are counted from 1, behind the words that are its options.
// Where it asks at once, a file that is opened is tried by a read of no bytes, which a folder refuses. A print that fails is passed over.
#[derive(Clone, Copy)]
pub struct Program<'a> {
    pub rt: HostRuntime,
    name: &'a str,
    options: usize,
    at_once: bool,
}

impl<'a> Program<'a> {
    pub fn new(rt: HostRuntime, name: &'a str, options: usize) -> Program<'a> {
        Program {
            rt,
            name,
            options,
            at_once: false,
        }
    }

    // The same, where each file is tried when it is opened.
    pub fn at_once(self) -> Program<'a> {
        Program {
            at_once: true,
            ..self
        }
    }

    // Whether there is an argument at a place.
    pub fn has(&self, place: usize) -> bool {
        let mut start = [0u8; 1];
        !matches!(
            self.rt.arg(place.wrapping_add(self.options), &mut start),
            Err(FillError::NotPresent)
        )
    }

    // Whether there are just so many arguments.
    pub fn has_just(&self, count: usize) -> bool {
        self.has(count) && !self.has(count.wrapping_add(1))
    }

    // The argument at a place; an error where there is none, or it is longer than any name of a file.
    pub fn argument(&self, place: usize) -> io::Result<Name> {
        names::argument(&self.rt, place.wrapping_add(self.options))
    }

    // The same, and the empty name in place of an error.
    pub fn named(&self, place: usize) -> Name {
        self.argument(place).unwrap_or_default()
    }

    // A line that is no error.
    pub fn tell<D: Display + Drop>(&self, text: D) {
        let _ = self.rt.eprintln(text);
    }

    pub fn say<D: Display + Drop>(&self, text: D) -> Told {
        let _ = eprintln!(self.rt; "{}: {text}", self.name);
        Told
    }

    // The same of what has a name, which need not be text.
    pub fn say_named<D: Display + Drop>(&self, name: &[u8], text: D) -> Told {
        let errors = self.rt.stderr();
        let _ = print!(errors; "{}: ", self.name);
        let _ = Print::write_all(&errors, name);
        let _ = println!(errors; ": {text}");
        Told
    }

    // The same of what an argument names.
    pub fn say_of<D: Display + Drop>(&self, place: usize, text: D) -> Told {
        self.say_named(self.named(place).as_bytes(), text)
    }

    // Opens what an argument names.
    pub fn open(&self, place: usize) -> Result<File, Told> {
        match self.argument(place) {
            Ok(name) => match self.opened(&name) {
                Ok(file) => Ok(file),
                Err(why) => Err(self.say_named(name.as_bytes(), Why::of(why))),
            },
            Err(why) => Err(self.say_named(b"argument", Why::of(why))),
        }
    }

    fn opened(&self, name: &Name) -> io::Result<File> {
        let mut file = fs::open(&self.rt, name.text()?)?;
        if self.at_once {
            let mut none = [0u8; 0];
            file.read(&mut none)?;
        }
        Ok(file)
    }

    // What an argument names ends here; else `longer` is said of it, or why it cannot be read.
    pub fn end<D: Display + Drop>(
        &self,
        file: &mut impl Read,
        place: usize,
        longer: D,
    ) -> Result<(), Told> {
        let mut more = [0u8; 1];
        match file.read(&mut more) {
            Ok(0) => Ok(()),
            Ok(_) => Err(self.say_of(place, longer)),
            Err(why) => Err(self.say_of(place, Why::of(why))),
        }
    }

    // The whole of what an argument names, at the start of buf; `longer` is said where it does not fit.
    pub fn load<'b, D: Display + Drop>(
        &self,
        place: usize,
        buf: &'b mut [u8],
        longer: D,
    ) -> Result<&'b mut [u8], Told> {
        let mut file = self.open(place)?;
        let (Ok(n) | Err(n)) = fill(&mut file, buf);
        self.end(&mut file, place, longer)?;
        Ok(&mut buf[..n])
    }
}
