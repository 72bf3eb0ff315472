// A memory: "CHIP", the number of cores, the number of lines, and eight words a line.
ghost use Rattle.std.specs.Prelude.{◌≡◌, ℕ, ◌+◌, ◌*◌, ◌/◌, ◌≤◌, ◌++◌, length, drop, IfOk};
ghost use Rattle.image.specs.Memory.{letters, word_at, header_rule, header_of, Fits, words_of, lent_for, loaded};
ghost use Rattle.image.specs.Refusals.{then};

use crate::accept::test_lent;
use crate::refusal::{LentSlice, Refusal};

// How many cores a memory is for, and how many lines it has.
#[derive(Clone, Copy, PartialEq, Eq, Debug)]
pub struct Header {
    pub cores: usize,
    pub lines: usize,
}

// Whether those of the first four bytes that are there are "CHIP".
fn spells(bytes: &[u8]) -> bool
    ensures { result ≡ letters bytes.now }
{
    bytes
        .iter()
        .zip(b"CHIP")
        .all(|(byte, letter)| byte == letter)
}

// The word in the four bytes from a place on.
fn word_at(bytes: &[u8], at: usize) -> u32
    requires { at + 4 ≤ length bytes.now }
    ensures { result ≡ word_at bytes.now at }
{
    u32::from_le_bytes([bytes[at], bytes[at + 1], bytes[at + 2], bytes[at + 3]])
}

// The front of a memory, by the rule.
fn read_fields(bytes: &[u8]) -> Result<Header, Refusal>
    ensures value { result ≡ header_rule bytes.now }
    ensures fits { IfOk result (λ h. Fits bytes.now h) }
{
    let length = bytes.len();
    if !spells(bytes) {
        return Err(Refusal::NoMagic);
    }
    if length < 5 {
        return Err(Refusal::MemoryEnds { length });
    }
    let cores = bytes[4] as usize;
    if !(1..=4).contains(&cores) {
        return Err(Refusal::Cores);
    }
    if length < 9 {
        return Err(Refusal::MemoryEnds { length });
    }
    let lines = word_at(bytes, 5) as usize;
    if !(1..=65536).contains(&lines) {
        return Err(Refusal::Lines);
    }
    let end = 9 + 32 * lines;
    if length < end {
        return Err(Refusal::MemoryEnds { length });
    }
    if length > end {
        return Err(Refusal::MemoryGoesOn { at: end });
    }
    Ok(Header { cores, lines })
}

// Reads the front of a memory, and tests how long it is.
pub fn read_header(bytes: &[u8]) -> Result<Header, Refusal>
    ensures value { result ≡ header_of bytes.now }
    ensures fits { IfOk result (λ h. Fits bytes.now h) }
{
    read_fields(bytes)
}

// Reads bytes as words, into the front of memory.
fn read_words(bytes: &[u8], memory: &mut [u32])
    requires { length bytes.now ≤ 4 * length memory.old }
    ensures { memory.new ≡ words_of bytes.now ++ drop (length bytes.now / 4) memory.old }
{
    // By index, since the word that is written has the same one; over the chunks of the bytes it reads no plainer.
    for i in 0..bytes.len() / 4 {
        memory[i] = word_at(bytes, 4 * i);
    }
}

// Reads a memory into the front of lent words. A refusal leaves them as they were.
pub fn load(bytes: &[u8], memory: &mut [u32]) -> Result<Header, Refusal>
    ensures value { result ≡ then (header_of bytes.now) (lent_for (length memory.old)) }
    ensures after { memory.new ≡ loaded result bytes.now memory.old }
{
    let header = read_header(bytes)?;
    test_lent(LentSlice::Board, memory.len(), 8 * header.lines)?;
    read_words(&bytes[9..], memory);
    Ok(header)
}
