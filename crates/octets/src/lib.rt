// Big-endian words in a slice of bytes, at an offset. Each is one load, or one store, and one turn of the bytes.
#![tactic(auto)]

ghost use Rattle.std.specs.Prelude.{◌≡◌, ◌+◌, ◌≤◌, length};
ghost use Rattle.octets.specs.Octets.{be, digits, put};

// The eight bytes from `at` as a number.
pub fn u64_at(s: &[u8], at: usize) -> u64
    requires { at + 8 ≤ length s.now }
    ensures { result ≡ be 8 s.now at }
{
    let Some(bytes) = s[at..at + 8].as_array::<8>() else {
        unreachable!()
    };
    u64::from_be_bytes(*bytes)
}

// The four bytes from `at` as a number.
pub fn u32_at(s: &[u8], at: usize) -> u64
    requires { at + 4 ≤ length s.now }
    ensures { result ≡ be 4 s.now at }
{
    let Some(bytes) = s[at..at + 4].as_array::<4>() else {
        unreachable!()
    };
    u64::from(u32::from_be_bytes(*bytes))
}

// The eight bytes of s become v.
#[tactic(auto, using(crate::proofs::Chunks::bytes_8))]
fn put_all(s: &mut [u8], v: u64)
    requires { length s.old ≡ 8 }
    ensures { s.new ≡ digits 8 v }
{
    let Some(bytes) = s.as_mut_array() else {
        unreachable!()
    };
    *bytes = v.to_be_bytes();
}

// The eight bytes from `at` become v.
#[tactic(auto, unfolding(crate::specs::Octets::put))]
pub fn put_u64(s: &mut [u8], at: usize, v: u64)
    requires { at + 8 ≤ length s.old }
    ensures { s.new ≡ put 8 s.old at v }
{
    put_all(&mut s[at..at + 8], v);
}
