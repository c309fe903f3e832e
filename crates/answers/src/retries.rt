// Retries used per system: three bits each, 21 systems in a word. Each promise is an equation with a definition of the model.
ghost use Rattle.std.specs.Prelude.{◌≡◌, ◌≤◌, ◌<◌, ◌^◌};
ghost use Rattle.model.specs.Numbers.{last_provider};
ghost use Rattle.model.specs.Retries.{octal, with_octal, used, with_used};
ghost use Rattle.answers.specs.Octals.{Octals};

use model::Retries;

#[tactic(auto, unfolding(model::specs::Retries::octal))]
fn digit(w: u64, q: u8) -> u8
    requires { q < 21 }
    ensures { (result ≡ octal q w) × (result < 8) }
{
    ((w >> (3 * q)) % 8) as u8
}

#[tactic(auto, using(crate::proofs::Shifts::old_part, crate::proofs::Shifts::sum_fits, crate::proofs::Shifts::put_is))]
fn with_digit(w: u64, q: u8, d: u8) -> u64
    requires { (q < 21) × (d < 8) × (w < 2 ^ 63) }
    ensures { result ≡ with_octal q d w }
{
    let s = 3 * q;
    let old = (w >> s) % 8;
    w - (old << s) + ((d as u64) << s)
}

// The retries that system p has used.
#[tactic(auto, unfolding(model::specs::Retries::used))]
pub fn used(r: Retries, p: u8) -> u8
    requires { (1 ≤ p) × (p ≤ last_provider) }
    ensures { (result ≡ used r p) × (result < 8) }
{
    if p <= 21 {
        return digit(r.low, p - 1);
    }
    if p <= 42 {
        return digit(r.mid, p - 22);
    }
    digit(r.high, p - 43)
}

// System p has used d.
#[tactic(auto, unfolding(model::specs::Retries::with_used))]
pub fn with_used(r: Retries, p: u8, d: u8) -> Retries
    requires le_p { (1 ≤ p) × (p ≤ last_provider) × (d < 8) }
    requires octals { Octals r }
    ensures { result ≡ with_used r p d }
{
    if p <= 21 {
        return Retries {
            low: with_digit(r.low, p - 1, d),
            ..r
        };
    }
    if p <= 42 {
        return Retries {
            mid: with_digit(r.mid, p - 22, d),
            ..r
        };
    }
    Retries {
        high: with_digit(r.high, p - 43, d),
        ..r
    }
}
