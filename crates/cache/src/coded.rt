// Tags and accesses as words, and what words say of them.
ghost use Rattle.std.specs.Prelude.{◌≡◌, slice_index};
ghost use Rattle.cache.specs.Words.{access_in, tag_of};

use crate::slot::{Access, Slot};

// What a kind and a line's number say.
impl From<[u32; 2]> for Slot {
    ghost from_gives = { λ words slot. slot ≡ tag_of (slice_index words 0) (slice_index words 1) };

    fn from([kind, line]: [u32; 2]) -> Slot {
        match kind {
            0 => Slot::Empty,
            1 => Slot::Shared { line },
            _ => Slot::Owned {
                line,
                dirty: kind != 2,
            },
        }
    }
}

// The kind and the line's number that say it.
impl From<Slot> for [u32; 2] {
    ghost from_gives = { λ slot words. tag_of (slice_index words 0) (slice_index words 1) ≡ slot };

    fn from(slot: Slot) -> [u32; 2] {
        match slot {
            Slot::Empty => [0, 0],
            Slot::Shared { line } => [1, line],
            Slot::Owned { line, dirty } => [if dirty { 3 } else { 2 }, line],
        }
    }
}

impl From<u32> for Access {
    ghost from_gives = { λ word access. access ≡ access_in word };

    fn from(word: u32) -> Access {
        if word == 0 {
            Access::Read
        } else {
            Access::Write
        }
    }
}

impl From<Access> for u32 {
    ghost from_gives = { λ access word. access_in word ≡ access };

    fn from(access: Access) -> u32 {
        match access {
            Access::Read => 0,
            Access::Write => 1,
        }
    }
}
