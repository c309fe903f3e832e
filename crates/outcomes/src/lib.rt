// Outcomes as the paper's numbers, and what an event is answered. [H7]
#![tactic(auto)]

ghost use Rattle.std.specs.Prelude.{◌≡◌, ◌+◌, ◌*◌, ◌<◌, ◌≤◌, length};
ghost use Rattle.model.specs.Outcomes.{number_of};
ghost use Rattle.outcomes.specs.Answered.{answer_of, noted};

use model::Outcome;

// The paper's number of the outcome, and how many messages stand in the tray.
#[repr(C)]
#[derive(Clone, Copy)]
pub struct Answer {
    pub outcome: u64,
    pub count: u64,
}

// The paper's number of an outcome.
pub fn number(o: Outcome) -> u64
    ensures { result ≡ number_of o }
{
    o as u64
}

// What an event with this outcome and so many messages is answered.
pub fn answered(out: Outcome, count: usize) -> Answer
    ensures { result ≡ answer_of out count }
{
    Answer {
        outcome: number(out),
        count: count as u64,
    }
}

// The outcome and the count of the i-th event of a run, in two bytes.
pub fn note(outs: &mut [u8], i: usize, a: Answer)
    requires { (a.outcome < 256) × (a.count < 256) × (2 * i + 2 ≤ length outs.old) }
    ensures { outs.new ≡ noted outs.old i a }
{
    outs[2 * i] = a.outcome as u8;
    outs[2 * i + 1] = a.count as u8;
}
