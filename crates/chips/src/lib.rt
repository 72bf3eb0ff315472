// The chips on lent words, as the board and runs see them, and what each promises.
#![tactic(auto)]

ghost use Rattle.std.specs.Prelude.{◌≡◌, ℕ, false, map, length, None, MatchResult, slice_index_or};
ghost use Rattle.cores.specs.Faults.{cycle_fault, fresh_fault, stopped_fault};
ghost use Rattle.cores.specs.Kept.{AlwaysInside, Drained};
ghost use Rattle.cores.specs.Lent.{Lent};
ghost use Rattle.cores.specs.Ports.{line_of, out_of};
ghost use Rattle.cores.specs.Promise.{Promises};
ghost use Rattle.cores.specs.Rv32.{rv32};

use cores::port::{Fault, Line, Out};

pub mod promises;
mod with_caches;
mod without_caches;

pub use with_caches::Cached;
pub use without_caches::Uncached;

// A chip whose state lies in lent words. A kind of chip is a type that holds nothing: what is generic in it is so of each kind.
pub trait LentChip {
    // once every core has stopped, memory is the machines' after so many cycles more
    const DRAIN: u64;

    ghost DRAIN: { ℕ };

    // the chip, the state that words are, and whether no core goes in it
    ghost lent: { Lent };

    // A new chip of 1 to 4 cores, for a memory of so many lines. Fewer than 16,384 words, or another number of cores, are refused, and nothing is changed.
    fn fresh(words: &mut [u32], cores: usize, lines: u32) -> Result<(), Fault>
        ensures { MatchResult result (λ _. (fresh_fault (length words.old) cores ≡ None) × (lent.state_of words.new ≡ lent.chip.fresh cores lines)) (λ f. (fresh_fault (length words.old) cores ≡ Some f) × (words.new ≡ words.old)) };

    // One cycle: the lines that come and whose interrupt lines are up go in, and what is put out comes back, the words said in `said`, two for each core.
    // Fewer than 16,384 words of the chip, or 16 for the words said, are refused, and nothing is changed.
    fn cycle(
        words: &mut [u32],
        given: &[Line],
        up: [bool; 4],
        said: &mut [u32],
    ) -> Result<Out, Fault>
        ensures { MatchResult result (λ o. (cycle_fault (length words.old) (length said.old) ≡ None) × ((lent.state_of words.new, out_of o said.new) ≡ lent.chip.cycle (lent.state_of words.old) (map line_of given.now) (λ k. slice_index_or up k false))) (λ f. (cycle_fault (length words.old) (length said.old) ≡ Some f) × (words.new ≡ words.old) × (said.new ≡ said.old)) };

    // Whether every core has stopped. Fewer than 16,384 words are refused.
    fn all_stopped(words: &[u32]) -> Result<bool, Fault>
        ensures { MatchResult result (λ b. (stopped_fault (length words.now) ≡ None) × (b ≡ lent.off (lent.state_of words.now))) (λ f. stopped_fault (length words.now) ≡ Some f) };

    ghost promised: { Promises rv32 lent.chip };

    ghost inside: { AlwaysInside lent.chip };

    ghost drained: { Drained lent.chip lent.off DRAIN };
}
