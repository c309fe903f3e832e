// Whole numbers as text: digits, the first of them not 0.
#![tactic(auto)]

ghost use Rattle.std.specs.Prelude.{◌≡◌};
ghost use Rattle.decimal.specs.Decimal.{digit_of, longer_by, spelled};

// The largest number to which a digit can be put.
const MOST_TENTH: u64 = 1_844_674_407_370_955_160;

// A digit's number; none for any other byte.
pub fn digit(b: u8) -> Option<u8>
    ensures { result ≡ digit_of b }
{
    match b {
        b'0'..=b'9' => Some(b - b'0'),
        _ => None,
    }
}

// A number with one more digit; none where the byte is none, the number too large, or there is none but a 0.
fn longer(n: u64, b: u8) -> Option<u64>
    ensures { result ≡ longer_by n b }
{
    let last = digit(b)?;
    if n >= MOST_TENTH {
        return None;
    }
    let more = n * 10 + u64::from(last);
    if more > 0 { Some(more) } else { None }
}

// The number that a text spells, from 1; none where it spells none.
#[tactic(auto, using(crate::proofs::Spelling::spells_next, crate::proofs::Spelling::spells_all))]
pub fn number(text: &[u8]) -> Option<u64>
    ensures { result ≡ spelled text.now }
{
    if text.is_empty() {
        return None;
    }
    let mut n = 0;
    for b in text {
        n = longer(n, *b)?;
    }
    Some(n)
}
