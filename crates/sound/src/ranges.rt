// Values in their ranges.
ghost use Rattle.std.specs.Prelude.{◌≡◌};
ghost use Rattle.model.specs.Numbers.{is_provider, is_time, is_number};
ghost use Rattle.sound.specs.Order.{outline_fits};

pub use kinds::ten_digits;
use model::{Version, canceller, limit, purpose, status};

pub fn is_time(t: u32) -> bool
    ensures { result ≡ is_time t }
{
    (1 <= t) & ((t as u64) < 4294967296)
}

pub fn is_number(n: u16) -> bool
    ensures { result ≡ is_number n }
{
    (1 <= n) & (n <= limit::NUMBER)
}

pub fn is_provider(p: u8) -> bool
    ensures { result ≡ is_provider p }
{
    (1 <= p) & (p <= limit::PROVIDERS)
}

// All but the times, the sets and the retries.
pub fn outline_fits(v: Version) -> bool
    ensures { result ≡ outline_fits v }
{
    ten_digits(v.id.tn.0)
        & is_number(v.id.number)
        & (v.status <= status::LAST)
        & is_provider(v.new.provider)
        & is_provider(v.old.provider)
        & (v.canceller <= canceller::LAST)
        & (v.cast.purpose <= purpose::LAST)
}
