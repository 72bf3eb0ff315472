// A slot with its words, by value: what it is after a step, and what memory gets of it; and the tables that slots lie in.
ghost use Rattle.std.specs.Prelude.{◌≡◌, ℕ, true, false, List, [], ◌∷◌, length, slice_index};
ghost use Rattle.words.specs.Parts.{part};
ghost use Rattle.cores.specs.Ports.{line_of, somes};
ghost use Rattle.cache.specs.Slots as slots;
ghost use Rattle.cache.specs.Slots.{back, has, holds, is_empty, lowered, owns, raised, words as eight_words};
ghost use Rattle.cache.specs.Words.{content_of, holding, slot_of, tag_of};
ghost use Rattle.cache.specs.declared.slot.Slot as tag;

use crate::slot::{Content, Slot};
use cores::port::Line;
use words::table::Table;

impl Slot {
    // Whether it has the line, to read at least.
    pub fn has(self, line: u32) -> bool
        ensures { (w : List ℕ) → has (holding self w) line ≡ result }
    {
        matches!(self, Slot::Shared { line: own } | Slot::Owned { line: own, .. } if own == line)
    }

    // Whether it has the line to write.
    pub fn owns(self, line: u32) -> bool
        ensures { (w : List ℕ) → owns (holding self w) line ≡ result }
    {
        matches!(self, Slot::Owned { line: own, .. } if own == line)
    }

    // Whether it has nothing.
    pub fn is_empty(self) -> bool
        ensures { (w : List ℕ) → is_empty (holding self w) ≡ result }
    {
        matches!(self, Slot::Empty)
    }
}

impl Content {
    // A line that has come from memory: owned, and clean.
    pub fn fetched(line: u32, words: [u32; 8]) -> Content
        ensures { content_of result ≡ holds line true false words }
    {
        Content {
            slot: Slot::Owned { line, dirty: false },
            words,
        }
    }

    // A line that may only be read.
    pub fn shared(line: u32, words: [u32; 8]) -> Content
        ensures { content_of result ≡ holds line false false words }
    {
        Content {
            slot: Slot::Shared { line },
            words,
        }
    }

    // The words of its line; an empty one has zeros.
    pub fn line_words(self) -> [u32; 8]
        ensures { result ≡ eight_words (content_of self) }
    {
        match self.slot {
            Slot::Empty => [0; 8],
            Slot::Shared { .. } | Slot::Owned { .. } => self.words,
        }
    }

    // The same line, to write from now on.
    pub fn raised(self) -> Content
        ensures { content_of result ≡ raised (content_of self) }
    {
        match self.slot {
            Slot::Empty | Slot::Owned { .. } => self,
            Slot::Shared { line } => Content::fetched(line, self.words),
        }
    }

    // The same line, only to read from now on.
    pub fn lowered(self) -> Content
        ensures { content_of result ≡ lowered (content_of self) }
    {
        match self.slot {
            Slot::Empty | Slot::Shared { .. } => self,
            Slot::Owned { line, .. } => Content::shared(line, self.words),
        }
    }

    // What memory gets when the line is handed back, or may only be read any more: the line, if it is dirty.
    pub fn written(self) -> Option<Line>
        ensures { somes line_of (result ∷ []) ≡ back (content_of self) }
    {
        match self.slot {
            Slot::Owned { line, dirty } if dirty => {
                let words = self.words;
                Some(Line {
                    number: line,
                    words,
                })
            }
            Slot::Owned { .. } | Slot::Empty | Slot::Shared { .. } => None,
        }
    }
}

// What ten words of a slot say of it without its words.
fn tag_in(block: &[u32]) -> Slot
    requires { length block.now ≡ 10 }
    ensures { result ≡ tag_of (slice_index block.now 0) (slice_index block.now 1) }
{
    Slot::from([block[0], block[1]])
}

// The words of its line.
#[tactic(auto, unfolding(words::specs::Parts::part))]
fn line_in(block: &[u32]) -> [u32; 8]
    requires { length block.now ≡ 10 }
    ensures { result ≡ part 2 8 block.now }
{
    let mut line = [0; 8];
    line.copy_from_slice(&block[2..10]);
    line
}

fn put_tag(block: &mut [u32], slot: Slot)
    requires { length block.old ≡ 10 }
    ensures { tag_of (slice_index block.new 0) (slice_index block.new 1) ≡ slot }
{
    block[0..2].copy_from_slice(&<[u32; 2]>::from(slot));
}

#[tactic(auto, using(crate::proofs::Written::line_written))]
fn put_line(block: &mut [u32], line: [u32; 8])
    requires { length block.old ≡ 10 }
    ensures line { part 2 8 block.new ≡ line }
    ensures kind { slice_index block.new 0 ≡ slice_index block.old 0 }
    ensures number { slice_index block.new 1 ≡ slice_index block.old 1 }
{
    block[2..10].copy_from_slice(&line);
}

// Slots without their words, in a table of slots.
pub struct Tags;

impl Table for Tags {
    type Value = Slot;

    const SIZE: usize = 10;

    ghost SIZE = { 10 };

    ghost Meaning = { tag.Slot };

    ghost means = { λ _ slot. slot };

    ghost said = { λ _ words. tag_of (slice_index words 0) (slice_index words 1) };

    fn read(block: &[u32]) -> Slot {
        tag_in(block)
    }

    fn write(block: &mut [u32], slot: Slot) {
        put_tag(block, slot);
    }
}

// Slots with their words.
pub struct Slots;

impl Table for Slots {
    type Value = Content;

    const SIZE: usize = 10;

    ghost SIZE = { 10 };

    ghost Meaning = { slots.Slot };

    ghost means = { λ _. content_of };

    ghost said = { λ _. slot_of };

    fn read(block: &[u32]) -> Content {
        Content {
            slot: tag_in(block),
            words: line_in(block),
        }
    }

    fn write(block: &mut [u32], content: Content) {
        put_tag(block, content.slot);
        put_line(block, content.words);
    }
}
