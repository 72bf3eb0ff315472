// Which slot of a cache: a number below 64.
ghost use Rattle.std.specs.Prelude.{◌≡◌, ℕ, suc, ◌%◌, ◌<◌, List, [], ◌∷◌};
ghost use Rattle.cache.specs.Slots.{home};

use std::marker::Model;

// The number of a slot.
#[derive(Clone, Copy)]
pub struct SlotIndex {
    number: usize,
}

impl Model for SlotIndex {
    ghost Value = { ℕ };

    ghost view = { λ slot. slot.number };

    ghost invariant = { λ slot. slot.number < 64 };

    ghost inverse = { λ n. record { number = n } };
}

// The slot that a word says.
impl From<u32> for SlotIndex {
    ghost from_gives = { λ word slot. slot ≡ word % 64 };

    fn from(word: u32) -> SlotIndex {
        SlotIndex {
            number: word as usize % 64,
        }
    }
}

impl SlotIndex {
    // The two slots that a line may be in.
    pub fn both_for(line: u32) -> [SlotIndex; 2]
        ensures { result ≡ home 0 line ∷ suc (home 0 line) ∷ [] }
    {
        let first = 2 * (line as usize % 32);
        [SlotIndex { number: first }, SlotIndex { number: first + 1 }]
    }

    // The next slot, and the first after the last.
    pub fn next(self) -> SlotIndex
        ensures { result ≡ suc self % 64 }
    {
        SlotIndex {
            number: (self.number + 1) % 64,
        }
    }

    pub fn number(self) -> usize
        ensures value { result ≡ self }
        ensures below { result < 64 }
    {
        self.number
    }
}
