// The names that arguments are: bytes, which need not be text.
ghost use Rattle.std.specs.Prelude.{◌≡◌, ℕ, ◌+◌, ◌≤◌, List, [], ◌++◌, length, take, IfSome, MatchResult, IsUtf8, IsNone, ◌↔◌, ◌<◌};

use std::env::{Env, FillError};
use std::io;
use std::marker::Model;

// Bytes that any name of a file fits in.
const MOST: usize = 4096;

// The system's numbers for what is no argument, for a name that is too long, and for one that is no text.
const INVALID: i32 = 22;

const TOO_LONG: i32 = 36;

const NO_TEXT: i32 = 84;

#[derive(Drop)]
pub struct Name {
    bytes: [u8; MOST],
    len: usize,
}

impl Model for Name {
    ghost Value = { List ℕ };

    ghost view = { λ n. take n.len n.bytes };

    ghost invariant = { λ n. n.len ≤ 4096 };
}

impl Default for Name {
    ghost is_default = { λ name. name ≡ [] };

    fn default() -> Name {
        Name {
            bytes: [0; MOST],
            len: 0,
        }
    }
}

// The argument at a place, from the program's own name on; an error where there is none, or it is longer than any name of a file.
pub fn argument(rt: &impl Env, place: usize) -> io::Result<Name> {
    let mut bytes = [0; MOST];
    match rt.arg(place, &mut bytes) {
        Ok(len) => Ok(Name { bytes, len }),
        Err(FillError::NotPresent) => Err(io::Error::from_raw_os_error(INVALID)),
        Err(FillError::TooLong) => Err(io::Error::from_raw_os_error(TOO_LONG)),
    }
}

impl Name {
    pub fn as_bytes(&self) -> &[u8]
        ensures { result.now ≡ self.now }
    {
        &self.bytes[..self.len]
    }

    // The name as the text that the system's calls take.
    pub fn text(&self) -> io::Result<&str>
        ensures { MatchResult result (λ text. text.now ≡ self.now) (λ _. ¬ (IsUtf8 self.now)) }
    {
        match str::from_utf8(self.as_bytes()) {
            Ok(text) => Ok(text),
            Err(_) => Err(io::Error::from_raw_os_error(NO_TEXT)),
        }
    }

    // The name with `end` behind it; none where that does not fit.
    pub fn with(self, end: &[u8]) -> Option<Name>
        ensures some { IfSome result (λ name. name ≡ self ++ end.now) }
        ensures none { IsNone result ↔ (4096 < length self + length end.now) }
    {
        if end.len() > MOST - self.len {
            return None;
        }
        let Name { mut bytes, len } = self;
        let behind = len + end.len();
        bytes[len..behind].copy_from_slice(end);
        Some(Name { bytes, len: behind })
    }
}
