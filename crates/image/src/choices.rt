// Choices: for each cycle the interrupt lines, and which of the waiting lines are given.
ghost use Rattle.std.specs.Prelude.{◌≡◌, ◌+◌, ◌<◌, [], length, drop, Ok, Err, MatchOption, MatchResult, slice_index};
ghost use Rattle.std.specs.Iterator.{YieldsFirstBy, item_count};
ghost use Rattle.image.specs.Choices.{up, cycle_in, cycles_left, cycles_of, choices_of, counted, Read, Stands, beyond, places, reading, read, ended, scan};
ghost use Rattle.image.specs.declared.choices.Expected.TheVariants.{Raised};

use crate::refusal::{ChoiceFault, Refusal};

// How many cycles choices may have.
const LIMIT: u64 = 4294967296;

// What the next byte is.
#[derive(Clone, Copy, PartialEq, Eq, Debug)]
pub(crate) enum Expected {
    Raised,
    Count,
    Place { left: u8, least: u16 },
}

// How far the bytes are read: what comes next, and how many cycles have begun.
#[derive(Clone, Copy, PartialEq, Eq, Debug)]
pub(crate) struct Reader {
    expected: Expected,
    begun: u64,
}

// Whether a bit from the number of cores on is set.
fn beyond(cores: usize, byte: u8) -> bool
    ensures { result ≡ beyond cores byte }
{
    cores < 8 && byte >> cores != 0
}

// Whether the interrupt line of a core is up.
pub fn is_up(raised: u8, core: usize) -> bool
    ensures { result ≡ up raised core }
{
    core < 8 && (raised >> core) % 2 == 1
}

// So many places are still to come, the next at least so large.
fn places(left: u8, least: u16) -> Expected
    ensures { result ≡ places left least }
{
    if left == 0 {
        Expected::Raised
    } else {
        Expected::Place { left, least }
    }
}

impl Reader {
    // Reads the byte at a place.
    fn read(self, cores: usize, at: usize, byte: u8) -> Result<Reader, Refusal>
        ensures { result ≡ read cores self.expected self.begun at byte }
    {
        let refused = |fault| Err(Refusal::Choices { fault, at });
        match self.expected {
            Expected::Raised if self.begun >= LIMIT => refused(ChoiceFault::TooManyCycles),
            Expected::Raised if beyond(cores, byte) => refused(ChoiceFault::NoSuchCore),
            Expected::Raised => Ok(Reader {
                expected: Expected::Count,
                begun: self.begun + 1,
            }),
            Expected::Count => Ok(Reader {
                expected: places(byte, 0),
                ..self
            }),
            Expected::Place { least, .. } if u16::from(byte) < least => {
                refused(ChoiceFault::NotRising)
            }
            Expected::Place { left, .. } => Ok(Reader {
                expected: places(left.saturating_sub(1), u16::from(byte) + 1),
                ..self
            }),
        }
    }

    // How many cycles there were, where the bytes end.
    fn end(self, at: usize) -> Result<u64, Refusal>
        ensures { result ≡ ended self.expected self.begun at }
    {
        match self.expected {
            Expected::Raised => Ok(self.begun),
            Expected::Count | Expected::Place { .. } => Err(Refusal::Choices {
                fault: ChoiceFault::CutShort,
                at,
            }),
        }
    }
}

// Reads all bytes, once, from left to right.
fn scan(bytes: &[u8], cores: usize) -> Result<u64, Refusal>
    ensures { result ≡ scan cores (reading Raised 0) 0 bytes.now }
{
    let mut reader = Reader {
        expected: Expected::Raised,
        begun: 0,
    };
    for (at, byte) in bytes.iter().enumerate() {
        reader = reader.read(cores, at, *byte)?;
    }
    reader.end(bytes.len())
}

// What is chosen in one cycle, and where its bytes end.
#[derive(Clone, Copy, PartialEq, Eq, Debug)]
pub struct Record<'a> {
    pub raised: u8,
    pub given: &'a [u8],
    pub end: usize,
}

// The record at a place, if all of its bytes are there.
fn record_at(bytes: &[u8], at: usize) -> Option<Record<'_>>
    ensures { MatchOption result (length bytes.now < at + 2 + slice_index bytes.now (at + 1)) (λ c. Stands bytes.now at c.raised c.given.now c.end) }
{
    let [raised, count, places @ ..] = bytes.get(at..)? else {
        return None;
    };
    let count = usize::from(*count);
    Some(Record {
        raised: *raised,
        given: places.get(..count)?,
        end: at + 2 + count,
    })
}

// The cycle whose bytes begin at a place, if all of them are there. From 0, and then from each end, these are all cycles.
pub fn cycle_at(bytes: &[u8], at: usize) -> Option<Record<'_>>
    ensures { MatchOption result (cycles_of (drop at bytes.now) ≡ []) (λ c. Read bytes.now at c.raised c.given.now c.end) }
{
    record_at(bytes, at)
}

// The records of choices, one after another, up to one that is cut short.
#[derive(Clone, Copy, PartialEq, Eq, Debug)]
pub struct Records<'a> {
    bytes: &'a [u8],
    at: usize,
}

// All records of choices.
pub fn all_records(bytes: &[u8]) -> Records<'_>
    ensures { cycles_left result ≡ cycles_of bytes.now }
{
    Records { bytes, at: 0 }
}

impl<'a> Iterator for Records<'a> {
    type Item = Record<'a>;

    ghost next_gives = { YieldsFirstBy cycle_in cycles_left };

    ghost remaining = { item_count cycles_left };

    fn next(&mut self) -> Option<Record<'a>> {
        let record = cycle_at(self.bytes, self.at)?;
        self.at = record.end;
        Some(record)
    }
}

// Tests choices for so many cores, and counts their cycles.
pub fn count_cycles(bytes: &[u8], cores: usize) -> Result<u64, Refusal>
    ensures value { result ≡ counted (choices_of cores bytes.now) }
    ensures cases { MatchResult result (λ _. choices_of cores bytes.now ≡ Ok (cycles_of bytes.now)) (λ e. choices_of cores bytes.now ≡ Err e) }
{
    scan(bytes, cores)
}
