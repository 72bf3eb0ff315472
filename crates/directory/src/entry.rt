// What the directory knows of each place, in lent words.
ghost use Rattle.std.specs.Prelude.{◌≡◌, ℕ, ◌+◌, ◌*◌, ◌<◌, Bool, List, length, Some, None, MatchOption};
ghost use Rattle.std.specs.Option.{is_some};
ghost use Rattle.cache.specs.Words.{holding, is_write};
ghost use Rattle.link.specs.Messages.{ask, unasked};
ghost use Rattle.link.specs.Words.{probe_of};
ghost use Rattle.directory.specs.Directory as known;
ghost use Rattle.directory.specs.Directory.{free, held, keeps, question, tag};
ghost use Rattle.directory.specs.Words.{entries_of, entry_in, entry_of};

use cache::index::SlotIndex;
use cache::slot::{Access, Slot};
use link::probe::Probe;
use words::table::{Table, at};

// Nothing is there, or a line: several caches may have it, to read, or this one alone, to write.
#[derive(Clone, Copy)]
pub enum Entry {
    Nobody,
    Shared { line: u32 },
    Owned { line: u32 },
}

impl Entry {
    // Whether the line is there, to read at least.
    pub fn holds(self, line: u32) -> bool
        ensures { result ≡ held (entry_of self) line }
    {
        matches!(self, Entry::Shared { line: there } | Entry::Owned { line: there } if there == line)
    }
}

// What is known of a place whose slot has this.
impl From<Slot> for Entry {
    ghost from_gives = { λ slot entry. (w : List ℕ) → entry_of entry ≡ tag (holding slot w) };

    fn from(slot: Slot) -> Entry {
        match slot {
            Slot::Empty => Entry::Nobody,
            Slot::Shared { line } => Entry::Shared { line },
            Slot::Owned { line, .. } => Entry::Owned { line },
        }
    }
}

// What is known of each place.
pub struct Entries;

impl Table for Entries {
    type Value = Entry;

    const SIZE: usize = 2;

    ghost SIZE = { 2 };

    ghost Meaning = { known.Entry };

    ghost means = { λ _. entry_of };

    ghost said = { λ _ words. entry_of (entry_in words) };

    fn read(block: &[u32]) -> Entry {
        let line = block[1];
        match block[0] {
            0 => Entry::Nobody,
            1 => Entry::Shared { line },
            _ => Entry::Owned { line },
        }
    }

    fn write(block: &mut [u32], entry: Entry) {
        match entry {
            Entry::Nobody => block[0] = 0,
            Entry::Shared { line } => block.copy_from_slice(&[1, line]),
            Entry::Owned { line } => block.copy_from_slice(&[2, line]),
        }
    }
}

// The slot of core j's cache that has the line, of the two that it may be in.
fn slot_with(entries: &[u32], line: u32, j: usize) -> Option<SlotIndex>
    requires { (j < 4) × (length entries.now ≡ 512) }
    ensures there { is_some result ≡ keeps (entries_of entries.now) line j }
    ensures asked { (o : Bool) → MatchOption result (question (entries_of entries.now) line o j ≡ unasked) (λ i. question (entries_of entries.now) line o j ≡ ask (64 * j + i) line o) }
{
    let [first, second] = SlotIndex::both_for(line);
    if at::<Entries>(entries, 64 * j + first.number()).holds(line) {
        Some(first)
    } else if at::<Entries>(entries, 64 * j + second.number()).holds(line) {
        Some(second)
    } else {
        None
    }
}

// Whether core j has the line, in one of its two places.
pub fn keeps(entries: &[u32], line: u32, j: usize) -> bool
    requires { (j < 4) × (length entries.now ≡ 512) }
    ensures { result ≡ keeps (entries_of entries.now) line j }
{
    slot_with(entries, line, j).is_some()
}

// Whether no core has the line.
pub fn is_free(entries: &[u32], line: u32) -> bool
    requires { length entries.now ≡ 512 }
    ensures { result ≡ free (entries_of entries.now) line 4 }
{
    (0..4).all(|j| !keeps(entries, line, j))
}

// The probe to core j for a line that another wants, to write or to read; none where core j does not have it.
pub fn probe_for(entries: &[u32], line: u32, access: Access, j: usize) -> Option<Probe>
    requires { (j < 4) × (length entries.now ≡ 512) }
    ensures { probe_of j result ≡ question (entries_of entries.now) line (is_write access) j }
{
    slot_with(entries, line, j).map(|slot| Probe { slot, line, access })
}
