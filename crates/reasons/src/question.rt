// What the arguments ask for: a TN, or the event at a place of a file.
use crate::event;
use program::{Program, Told};

pub const PROVIDERS: usize = 1;

pub const BOOKS: usize = 2;

const WORD: usize = 3;

pub const TN: usize = 4;

pub const EVENTS: usize = 4;

const PLACE: usize = 5;

// The event that a question is of.
#[derive(Clone, Copy)]
pub struct Asked {
    pub kind: u8,
    pub version: u16,
}

// A TN alone, or an event's.
#[derive(Clone, Copy)]
pub struct Question {
    pub tn: u64,
    pub event: Option<Asked>,
}

fn is_word(program: Program<'_>, text: &[u8]) -> bool {
    program.named(WORD).as_bytes() == text
}

// Whether there are as many arguments as the word in their middle asks for.
pub fn fits(program: Program<'_>) -> bool {
    if !program.has(TN) || program.has(PLACE + 1) {
        return false;
    }
    is_word(program, b"event") || !program.has(PLACE) && is_word(program, b"tn")
}

// The TN that ten digits are; 0, which is none, for any other text, and that is told with the answer.
fn of_tn(program: Program<'_>) -> Question {
    let text = program.named(TN);
    let digits = text.as_bytes();
    let tn = if digits.len() == 10 {
        decimal::number(digits).unwrap_or(0)
    } else {
        0
    };
    Question { tn, event: None }
}

// The event at the place that the last argument names, or in a file of one.
fn of_event(program: Program<'_>) -> Result<Question, Told> {
    if !program.has(PLACE) {
        return event::alone(program);
    }
    match decimal::number(program.named(PLACE).as_bytes()) {
        Some(place) => event::at(program, place),
        None => Err(program.say_of(PLACE, "no place: they are counted from 1")),
    }
}

pub fn ask(program: Program<'_>) -> Result<Question, Told> {
    if is_word(program, b"tn") {
        Ok(of_tn(program))
    } else {
        of_event(program)
    }
}
