// The chip on lent words: a new one, and a cycle.
ghost use Rattle.std.specs.Prelude.{◌≡◌, ◌<◌, ◌≤◌, false, ◌++◌, map, length, drop, Some, None, MatchResult, slice_index_or};
ghost use Rattle.cores.specs.Loop.{each};
ghost use Rattle.cores.specs.Ports.{line_of, out_of, said_of, somes};
ghost use Rattle.cores.specs.Faults.{cycle_fault};
ghost use Rattle.cached.specs.Layout.{state_of};
ghost use Rattle.cached.specs.Puts.{Says, all_acted};
ghost use Rattle.cached.specs.Rv.{rv};
ghost use Rattle.cached.specs.Soc.{act, cycle};

use crate::act::act;
use crate::deliver::deliver;
use crate::reply::{answer_all, take_all};
use crate::start::{pass_turn, start_next};
use crate::state::Chip;
use cores::port::{Event, Fault, Line, Out};

// The lines that the cores write and their events, by core.
#[derive(Clone, Copy)]
pub(crate) struct Deeds {
    pub wrote: [Option<Line>; 4],
    pub did: [Option<Event>; 8],
}

// The word that core k has said in this cycle, if it has said one.
fn say(said: &mut [u32], k: usize, word: Option<u32>)
    requires { (k < 4) × (length said.old ≡ 8) }
    ensures { Says k word said.old said.new }
{
    match word {
        Some(word) => {
            said[2 * k] = 1;
            said[2 * k + 1] = word;
        }
        None => said[2 * k] = 0,
    }
}

// Each core acts.
fn act_all(chip: &mut Chip, up: [bool; 4], said: &mut [u32]) -> Deeds
    requires { length said.old ≡ 8 }
    ensures { (state_of chip.new, all_acted result.wrote (said_of said.new) result.did) ≡ each (act rv (λ k. slice_index_or up k false)) 4 (state_of chip.old) }
{
    // A loop, as a closure that lends the chip on tells nothing of what it leaves there.
    let mut wrote = [None; 4];
    let mut did = [None; 8];
    for k in 0..4 {
        let acted = act(chip, k, up[k]);
        wrote[k] = acted.wrote;
        did[k] = acted.did;
        say(said, k, acted.said);
    }
    Deeds { wrote, did }
}

// Two rows of lines, one after the other.
fn both(first: [Option<Line>; 4], second: [Option<Line>; 4]) -> [Option<Line>; 8]
    ensures { somes line_of result ≡ somes line_of first ++ somes line_of second }
{
    let mut both = [None; 8];
    both[..4].copy_from_slice(&first);
    both[4..].copy_from_slice(&second);
    both
}

// The lines of a row of eight places, in four: it has no more.
fn in_four(row: [Option<Line>; 8]) -> [Option<Line>; 4]
    requires { length (somes line_of row) ≤ 4 }
    ensures { somes line_of result ≡ somes line_of row }
{
    // `n` is counted, since a place of the four is taken for a line only.
    let mut four = [None; 4];
    let mut n = 0;
    for place in &row {
        if place.is_some() {
            four[n] = *place;
            n += 1;
        }
    }
    four
}

// The steps of a cycle, on the words that are used. What the cores answer and what they write have four lines at most.
fn steps(chip: &mut Chip, given: &[Line], up: [bool; 4], said: &mut [u32]) -> Out
    requires { length said.old ≡ 8 }
    ensures value { (state_of chip.new, out_of result said.new) ≡ cycle rv (state_of chip.old) (map line_of given.now) (λ k. slice_index_or up k false) }
    ensures long { length chip.new ≡ 3309 }
{
    deliver(chip, given);
    take_all(chip);
    let answered = answer_all(chip);
    let deeds = act_all(chip, up, said);
    let asks = start_next(chip);
    pass_turn(chip, &deeds.did);
    Out {
        asks,
        writes: in_four(both(answered, deeds.wrote)),
        did: deeds.did,
    }
}

fn cycle_in(chip: &mut [u32], given: &[Line], up: [bool; 4], said: &mut [u32]) -> Out
    requires { (16384 ≤ length chip.old) × (16 ≤ length said.old) }
    ensures done { (state_of chip.new, out_of result said.new) ≡ cycle rv (state_of chip.old) (map line_of given.now) (λ k. slice_index_or up k false) }
    ensures unused { drop 3309 chip.new ≡ drop 3309 chip.old }
    ensures unsaid { drop 8 said.new ≡ drop 8 said.old }
{
    let used = chip.first_chunk_mut().unwrap();
    steps(used, given, up, &mut said[0..8])
}

// One cycle: the lines that come and whose interrupt lines are up go in, and what is put out comes back, the words said in `said`, two for each core.
// Fewer than 16,384 words of the chip, or 16 for the words said, are refused, and nothing is changed.
pub fn cycle(
    chip: &mut [u32],
    given: &[Line],
    up: [bool; 4],
    said: &mut [u32],
) -> Result<Out, Fault>
    ensures { MatchResult result (λ o. (cycle_fault (length chip.old) (length said.old) ≡ None) × ((state_of chip.new, out_of o said.new) ≡ cycle rv (state_of chip.old) (map line_of given.now) (λ k. slice_index_or up k false)) × (drop 3309 chip.new ≡ drop 3309 chip.old) × (drop 8 said.new ≡ drop 8 said.old)) (λ f. (cycle_fault (length chip.old) (length said.old) ≡ Some f) × (chip.new ≡ chip.old) × (said.new ≡ said.old)) }
{
    if chip.len() < 16384 {
        return Err(Fault::ChipShort);
    }
    if said.len() < 16 {
        return Err(Fault::SaidShort);
    }
    Ok(cycle_in(chip, given, up, said))
}
