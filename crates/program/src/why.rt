// Why a call has failed.
use std::fmt::{Display, Formatter, InlineText};
use std::{fmt, io};

// The most bytes that an error's text has.
const MOST: usize = 256;

// What stands between the system's words for an error and its number.
const NUMBERED: &str = " (os error ";

// An error in the system's words, without its number.
#[derive(Clone, Copy)]
pub struct Why {
    text: InlineText<MOST>,
}

impl Why {
    pub fn of(error: io::Error) -> Why {
        Why {
            text: InlineText::of(error),
        }
    }
}

impl Display for Why {
    fn fmt<W: fmt::Write>(&self, f: &mut Formatter<W>) -> fmt::Result {
        let text = self.text.as_str();
        match text.rsplit_once(NUMBERED) {
            Some((words, _)) => f.write_str(words),
            None => f.write_str(text),
        }
    }
}
