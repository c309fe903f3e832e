// One step: check, read, decide, write.
#![tactic(auto)]

pub mod event;
pub mod step;
