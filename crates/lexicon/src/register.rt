// The registers by their names.
ghost use Rattle.std.specs.Prelude.{◌≡◌, ◌<◌, IfSome, length, position};
ghost use Rattle.std.specs.Str.{bytes_eq};
ghost use Rattle.lexicon.specs.Register.{numbered, register_number};

use crate::literal::number;

// The names that the calling convention gives x0 to x31.
const NAMES: [&str; 32] = [
    "zero", "ra", "sp", "gp", "tp", "t0", "t1", "t2", "s0", "s1", "a0", "a1", "a2", "a3", "a4",
    "a5", "a6", "a7", "s2", "s3", "s4", "s5", "s6", "s7", "s8", "s9", "s10", "s11", "t3", "t4",
    "t5", "t6",
];

// x0 to x31 by number.
fn numbered(name: &[u8]) -> Option<usize>
    ensures value { result ≡ numbered name.now }
    ensures below { IfSome result (λ n. n < 32) }
{
    match name {
        [b'x', b'0', _, ..] => None,
        [b'x', digits @ ..] => number(digits).filter(|n| *n < 32).map(|n| n as usize),
        _ => None,
    }
}

fn place(names: &[&str], name: &[u8]) -> Option<usize>
    ensures value { result ≡ position (λ other. bytes_eq other.now name.now) names.now }
    ensures within { IfSome result (λ i. i < length names.now) }
{
    names.iter().position(|other| other.as_bytes() == name)
}

// The register of a name: x0 to x31, or as the calling convention has it; fp is another name of s0.
pub fn register_of(name: &[u8]) -> Option<usize>
    ensures value { result ≡ register_number (position (λ other. bytes_eq other.now name.now) NAMES) name.now }
    ensures below { IfSome result (λ n. n < 32) }
{
    if name == b"fp".as_slice() {
        return Some(8);
    }
    place(&NAMES, name).or_else(|| numbered(name))
}
