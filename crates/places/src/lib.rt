// Places of the books: whether one is good, and whether they are free.
#![tactic(auto)]

pub mod blanks;
pub mod entries;
