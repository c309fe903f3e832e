// Sets of providers 1 to 63 in a u64: provider p is bit p. Place 0, the NPAC's number, is no provider's.
#![tactic(auto)]

ghost use Rattle.std.specs.Prelude.{◌≡◌, ◌+◌, ◌-◌, ◌^◌, ◌<◌, true, false};
ghost use Rattle.systems.specs.Set.{member, count, meet};

// The set that holds p alone.
pub fn bit(p: u8) -> u64
    requires { p < 64 }
    ensures { result ≡ 2 ^ p }
{
    1u64 << p
}

// Whether p is in s, for any s and p.
pub fn has(s: u64, p: u8) -> bool
    ensures { result ≡ member s p }
{
    if p < 64 {
        return (s >> p) % 2 == 1;
    }
    false
}

// s with p, which it lacks.
#[tactic(auto, using(crate::proofs::Laws::out_fits))]
pub fn with(s: u64, p: u8) -> u64
    requires { (p < 64) × (member s p ≡ false) }
    ensures { result ≡ s + 2 ^ p }
{
    s + bit(p)
}

// s without p, which it has.
#[tactic(auto, using(crate::proofs::Laws::in_le))]
pub fn without(s: u64, p: u8) -> u64
    requires { (p < 64) × (member s p ≡ true) }
    ensures { result ≡ s - 2 ^ p }
{
    s - bit(p)
}

// How many providers s has, for any s: its ones above place 0.
#[tactic(auto, using(crate::proofs::Laws::count_ones))]
pub fn size(s: u64) -> u32
    ensures { result ≡ count s 63 }
{
    u64::count_ones(s / 2)
}

// Those providers that are in both sets, for any two: the common ones above place 0.
#[tactic(auto, using(crate::proofs::Laws::meet_and))]
pub fn meet(a: u64, b: u64) -> u64
    ensures { result ≡ meet a b }
{
    (a & b) / 2 * 2
}
