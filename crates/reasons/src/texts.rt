// The words: of a provider's class, of an event's kind, and of what was asked.
use crate::question::Question;
use model::kind;
use std::fmt;
use std::fmt::{Display, Formatter};

// A class by its number, in document 02's words.
#[derive(Clone, Copy)]
pub struct Class(pub u8);

impl Display for Class {
    fn fmt<W: fmt::Write>(&self, f: &mut Formatter<W>) -> fmt::Result {
        f.write_str(match self.0 {
            0 => "selected",
            1 => "not present",
            2 => "no Local SMS",
            3 => "filter on the only code",
            _ => "filters on both codes",
        })
    }
}

// A kind of event by its number, in the header's words.
#[derive(Clone, Copy)]
pub struct Kind(pub u8);

impl Display for Kind {
    fn fmt<W: fmt::Write>(&self, f: &mut Formatter<W>) -> fmt::Result {
        f.write_str(match self.0 {
            kind::NEW_CREATES => "new side creates",
            kind::OLD_CREATES => "old side creates",
            kind::NEW_MODIFIES => "new side modifies",
            kind::OLD_MODIFIES => "old side modifies",
            kind::ACTIVATE => "activate",
            kind::CANCEL => "cancel",
            kind::ACKNOWLEDGE_CANCEL => "acknowledge cancel",
            kind::RESOLVE_CONFLICT => "resolve conflict",
            kind::MODIFY_ACTIVE => "modify active",
            kind::DISCONNECT => "disconnect",
            kind::REPLY => "reply",
            kind::SILENCE => "silence",
            kind::WINDOW_RAN_OUT => "window ran out",
            kind::RESEND => "resend",
            _ => "purge",
        })
    }
}

impl Display for Question {
    fn fmt<W: fmt::Write>(&self, f: &mut Formatter<W>) -> fmt::Result {
        match self.event {
            Some(e) => write!(f, "{}: TN {} version {}", Kind(e.kind), self.tn, e.version),
            None => write!(f, "TN {}", self.tn),
        }
    }
}

// What was asked, with the TN's code and the code that it is paired with, if any.
pub fn say_question(out: &impl Print, q: Question, code: u64, partner: Option<u64>) {
    let _ = match partner {
        Some(other) => println!(out; "{q}, code {code}, paired with {other}"),
        None => println!(out; "{q}, code {code}"),
    };
    if matches!(q.event, Some(e) if e.kind == kind::RESEND) {
        let _ = println!(out; "a resend asks, of the selected, only those whose download failed");
    }
}
