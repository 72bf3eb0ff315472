// A new chip on lent words, and whether every core of a chip has stopped.
ghost use Rattle.std.specs.Prelude.{◌≡◌, ◌<◌, ◌≤◌, length, drop, Some, None, MatchResult};
ghost use Rattle.cores.specs.Faults.{fresh_fault, stopped_fault};
ghost use Rattle.cached.specs.Layout.{state_of};
ghost use Rattle.cached.specs.Rv.{rv};
ghost use Rattle.cached.specs.Soc.{fresh};
ghost use Rattle.cached.specs.Stopped.{all_off};

use crate::control::Control;
use crate::state::{Chip, is_on, set_control, set_core, set_due, set_on};
use cores::port::Fault;
use rv32::core_state::Core;

// A new chip, on the words that are used: all words are 0, which makes empty slots, entries, requests and messages, but for the cores and what they share.
fn begin(chip: &mut Chip, cores: usize, lines: u32)
    requires { cores ≤ 4 }
    ensures value { state_of chip.new ≡ fresh rv cores lines }
    ensures long { length chip.new ≡ 3309 }
{
    chip.fill(0);
    for k in 0..4 {
        set_core(chip, k, Core::new(k as u32));
        set_on(chip, k, k < cores);
        set_due(chip, k, true);
    }
    set_control(
        chip,
        Control {
            count: cores,
            size: lines,
            lead: 0,
            turn: 0,
            way: false,
        },
    );
}

fn fresh_in(chip: &mut [u32], cores: usize, lines: u32)
    requires { (16384 ≤ length chip.old) × (cores ≤ 4) }
    ensures done { state_of chip.new ≡ fresh rv cores lines }
    ensures unused { drop 3309 chip.new ≡ drop 3309 chip.old }
{
    let used = chip.first_chunk_mut().unwrap();
    begin(used, cores, lines);
}

// A new chip of 1 to 4 cores, for a memory of so many lines. Fewer than 16,384 words, or another number of cores, are refused, and nothing is changed.
pub fn fresh(chip: &mut [u32], cores: usize, lines: u32) -> Result<(), Fault>
    ensures { MatchResult result (λ _. (fresh_fault (length chip.old) cores ≡ None) × (state_of chip.new ≡ fresh rv cores lines) × (drop 3309 chip.new ≡ drop 3309 chip.old)) (λ f. (fresh_fault (length chip.old) cores ≡ Some f) × (chip.new ≡ chip.old)) }
{
    if chip.len() < 16384 {
        return Err(Fault::ChipShort);
    }
    if !(1..=4).contains(&cores) {
        return Err(Fault::Cores);
    }
    fresh_in(chip, cores, lines);
    Ok(())
}

fn all_off(chip: &Chip) -> bool
    ensures { result ≡ all_off (state_of chip.now) }
{
    !(0..4).any(|k| is_on(chip, k))
}

// Whether every core has stopped. Fewer than 16,384 words are refused.
pub fn all_stopped(chip: &[u32]) -> Result<bool, Fault>
    ensures { MatchResult result (λ b. (stopped_fault (length chip.now) ≡ None) × (b ≡ all_off (state_of chip.now))) (λ f. stopped_fault (length chip.now) ≡ Some f) }
{
    if chip.len() < 16384 {
        return Err(Fault::ChipShort);
    }
    Ok(all_off(chip.first_chunk().unwrap()))
}
