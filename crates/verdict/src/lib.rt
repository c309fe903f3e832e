// What an event is answered, as values: its outcome, the rows that change, and who is told. No table and no tray is seen here.
#![tactic(auto)]

use model::{Id, Message, Outcome, Version};

// The rows that change, each version with its place. The version stands first in each, so that all of them have it at one offset.
#[derive(Clone, Copy)]
pub enum Rows {
    Nothing,
    Put(Version, usize),
    PutTwo(Version, usize, Version, usize),
    Add(Version),
    Strike(usize, Id),
}

// Who is told: one SOA, two, one Local SMS, or a set of them.
#[derive(Clone, Copy)]
pub enum To {
    Soa(u8),
    Soas(u8, u8),
    Local(u8),
    Locals(u64),
}

// The same message to each of them.
#[derive(Clone, Copy)]
pub struct Run {
    pub say: Message,
    pub to: To,
}

#[derive(Clone, Copy)]
pub enum Mail {
    Silence,
    One(Run),
    Two(Run, Run),
}

#[derive(Clone, Copy)]
pub struct Verdict {
    pub out: Outcome,
    pub rows: Rows,
    pub mail: Mail,
}
