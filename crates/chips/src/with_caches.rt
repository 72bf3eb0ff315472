// The chip with caches on lent words.
ghost use Rattle.cached.specs.Layout.{state_of};
ghost use Rattle.cached.specs.Rv.{rv};
ghost use Rattle.cached.specs.Soc.{chip};
ghost use Rattle.cached.specs.Stopped.{all_off};
ghost use Rattle.cached.proofs.Owed.{cached_promises};
ghost use Rattle.cached.proofs.Settled.{always_inside, drained as settled};

use crate::LentChip;
use cores::port::{Fault, Line, Out};

// Each core has a cache; what is newer in one is written back when it has to be.
pub struct Cached;

impl LentChip for Cached {
    const DRAIN: u64 = 8192;

    ghost DRAIN = { 8192 };

    ghost lent = { record { chip = chip rv; state_of = state_of; off = all_off } };

    ghost promised = { cached_promises };

    ghost inside = { always_inside };

    ghost drained = { settled };

    fn fresh(words: &mut [u32], cores: usize, lines: u32) -> Result<(), Fault> {
        cached::fresh::fresh(words, cores, lines)
    }

    fn cycle(
        words: &mut [u32],
        given: &[Line],
        up: [bool; 4],
        said: &mut [u32],
    ) -> Result<Out, Fault> {
        cached::cycle::cycle(words, given, up, said)
    }

    fn all_stopped(words: &[u32]) -> Result<bool, Fault> {
        cached::fresh::all_stopped(words)
    }
}
