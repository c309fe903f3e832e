// The version table in a lent slice of bytes: rows of ROW bytes, used rows first (docs/LAYOUTS.md). Above it one speaks of versions.
#![tactic(auto)]

pub mod change;
pub mod count;
pub mod find;
pub mod survey;

ghost use Rattle.scan.specs.Sound.{SoundTable};

// A sound table that is only read, and how many of its rows are used.
#[derive(Clone, Copy)]
pub struct Table<'a> {
    pub bytes: &'a [u8],
    pub used: usize,
    ghost sound: { SoundTable bytes.now used },
}
