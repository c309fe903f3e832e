// How many events had each outcome, and that in words.
use program::Program;
use std::fmt;
use std::fmt::{Display, Formatter};

// Outcomes are below this number; those between that no event has are never counted.
const NUMBERS: usize = 19;

// How many events had each outcome, by its number.
#[derive(Clone, Copy)]
pub struct Tally {
    counts: [u64; NUMBERS],
}

// An outcome by its number, in document 01's words.
#[derive(Clone, Copy)]
struct Words(usize);

impl Display for Words {
    fn fmt<W: fmt::Write>(&self, f: &mut Formatter<W>) -> fmt::Result {
        f.write_str(match self.0 {
            0 => "done",
            1 => "table or books unsound, R above 7, or a tray below 64 whole places",
            2 => "record not 24 bytes or malformed",
            3 => "sender or other is not 0 and not present",
            4 => "a create for a code not listed",
            5 => "that TN and version not in the table",
            6 => "sender lacks the standing",
            7 => "status does not allow it",
            8 => "too early",
            9 => "a worked version that this create does not fit",
            10 => "number busy",
            11 => "not awaited",
            12 => "the old side is not the current provider",
            13 => "a fresh version and no free row",
            14 => "a fresh version and number 65,535 is used",
            18 => "a concurring create with another due date than the first",
            _ => "no outcome",
        })
    }
}

impl Tally {
    pub fn new() -> Tally {
        Tally {
            counts: [0; NUMBERS],
        }
    }

    // One more event with that outcome.
    pub fn count(&mut self, outcome: u64) {
        let i = outcome as usize;
        if i < NUMBERS {
            self.counts[i] = self.counts[i].saturating_add(1);
        }
    }

    // How many were done, and a line for each number that an event was refused with.
    pub fn say(&self, program: Program<'_>) {
        program.tell(format_args!("done {}", self.counts[0]));
        for (outcome, n) in self.counts.iter().enumerate().skip(1) {
            if *n > 0 {
                program.tell(format_args!("refused {n} with {outcome}: {}", Words(outcome)));
            }
        }
    }
}
