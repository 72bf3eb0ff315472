// The chip without caches on lent words.
ghost use Rattle.soc.specs.Layout.{state_of};
ghost use Rattle.soc.specs.Rv.{rv};
ghost use Rattle.soc.specs.Soc.{chip};
ghost use Rattle.soc.specs.Stopped.{all_off};
ghost use Rattle.soc.proofs.Owed.{soc_promises};
ghost use Rattle.soc.proofs.Kept.{always_inside, drained as settled};

use crate::LentChip;
use cores::port::{Fault, Line, Out};

// Cores take turns at the memory, which has each stored word at once.
pub struct Uncached;

impl LentChip for Uncached {
    const DRAIN: u64 = 0;

    ghost DRAIN = { 0 };

    ghost lent = { record { chip = chip rv; state_of = state_of; off = all_off } };

    ghost promised = { soc_promises };

    ghost inside = { always_inside };

    ghost drained = { settled };

    fn fresh(words: &mut [u32], cores: usize, lines: u32) -> Result<(), Fault> {
        soc::cycle::fresh(words, cores, lines)
    }

    fn cycle(
        words: &mut [u32],
        given: &[Line],
        up: [bool; 4],
        said: &mut [u32],
    ) -> Result<Out, Fault> {
        soc::cycle::cycle(words, given, up, said)
    }

    fn all_stopped(words: &[u32]) -> Result<bool, Fault> {
        soc::cycle::all_stopped(words)
    }
}
