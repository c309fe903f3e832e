// Whether one place of the books is good, as a number: a code's, a filter's, and the codes of a pair. No bytes. [B2, B3, B4]
ghost use Rattle.std.specs.Prelude.{◌≡◌, ◌||◌, eqb};
ghost use Rattle.model.specs.Numbers.{is_code};
ghost use Rattle.places.specs.Good.{good_code, good_filter};

use model::{Marks, limit};

// The largest provider, as a word.
const PROVIDERS: u64 = limit::PROVIDERS as u64;

// Six digits, the first and the fourth of them 2 to 9: the last three say 200 or more.
pub fn is_code(c: u64) -> bool
    ensures { result ≡ is_code c }
{
    (200000 <= c) & (c < 1000000) & (200 <= c % 1000)
}

// A code's place, behind the place `last`. [B2]
pub fn good_code(marks: Marks, last: u64, w: u64) -> bool
    ensures { result ≡ good_code marks last w }
{
    let code = w / 64;
    let owner = (w % 64) as u8;
    let known = is_code(code);
    let here = systems::has(marks.present, owner);
    (last / 64 < code) & (known & ((1 <= owner) & (owner <= limit::PROVIDERS)) & here)
}

// A filter's place, behind the place `last`. [B3]
pub fn good_filter(marks: Marks, last: u64, w: u64) -> bool
    ensures { result ≡ good_filter marks last w }
{
    let provider = w / 1048576;
    if PROVIDERS < provider {
        return false;
    }
    let known = is_code(w % 1048576);
    let here = systems::has(marks.present, provider as u8);
    (last < w) & ((1 <= provider) & (provider <= PROVIDERS) & here & known)
}

// Whether one of a pair's two codes is the code.
pub fn has_code(a: u64, b: u64, code: u64) -> bool
    ensures { result ≡ (eqb a code || eqb b code) }
{
    (a == code) | (b == code)
}
