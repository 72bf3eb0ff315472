// The chip on lent words: a new one, and a cycle.
ghost use Rattle.std.specs.Prelude.{◌≡◌, ◌<◌, ◌≤◌, false, [], ◌∷◌, ◌++◌, map, length, drop, Some, None, MatchResult, slice_index_or};
ghost use Rattle.rv32.specs.Execute.{did as done};
ghost use Rattle.cores.specs.Loop.{each, joined};
ghost use Rattle.cores.specs.Machines.{step};
ghost use Rattle.cores.specs.Ports.{event_of, line_of, out_of, said_of, somes};
ghost use Rattle.cores.specs.Faults.{cycle_fault, fresh_fault, stopped_fault};
ghost use Rattle.soc.specs.Layout.{state_of};
ghost use Rattle.soc.specs.Rv.{rv};
ghost use Rattle.soc.specs.Stopped.{all_off};
ghost use Rattle.soc.specs.Soc.{act, cycle, finish, fresh, received, take_interrupt};
ghost use Rattle.soc.specs.Turn.{EmptyFrom, only_did, put_out};

use crate::control::{Act, Control};
use crate::state::{Chip, control, core, is_on, set_control, set_core, set_on};
use cores::port::{Event, Fault, Line, Out};
use rv32::core_state::{Core, Effect};

// A line comes for the core whose turn it is. At most one is asked for, so the first is all that come.
fn receive(chip: &mut Chip, given: &[Line])
    ensures { state_of chip.new ≡ received rv (map line_of given.now) (state_of chip.old) }
{
    let [line, ..] = given else {
        return;
    };
    let before = control(chip);
    let code = core(chip, before.turn).fetches(before.size);
    set_control(chip, before.with_line(code, *line));
}

// Core k takes an interrupt if it goes, its line is up, and it lets them.
fn take_interrupt(chip: &mut Chip, up: [bool; 4], k: usize) -> Option<Event>
    requires { k < 4 }
    ensures state { state_of chip.new ≡ (take_interrupt rv (λ j. slice_index_or up j false) k (state_of chip.old)).0 }
    ensures out { only_did (somes event_of (result ∷ [])) ≡ (take_interrupt rv (λ j. slice_index_or up j false) k (state_of chip.old)).1 }
{
    let core = core(chip, k);
    if is_on(chip, k) && up[k] && core.lets {
        set_core(chip, k, core.interrupted());
        Some(Event::Interrupt(k))
    } else {
        None
    }
}

// Each core may take an interrupt: what was taken, in the first places of a row.
fn take_interrupts(chip: &mut Chip, up: [bool; 4]) -> [Option<Event>; 8]
    ensures state { state_of chip.new ≡ (each (take_interrupt rv (λ j. slice_index_or up j false)) 4 (state_of chip.old)).0 }
    ensures out { only_did (somes event_of result) ≡ (each (take_interrupt rv (λ j. slice_index_or up j false)) 4 (state_of chip.old)).1 }
    ensures row { EmptyFrom 4 result }
{
    // A loop, as a closure that lends the chip on tells nothing of what it leaves there.
    let mut did = [None; 8];
    for k in 0..4 {
        did[k] = take_interrupt(chip, up, k);
    }
    did
}

// The instruction of the core whose turn it is is done, and the turn passes.
fn finish(chip: &mut Chip, effect: Effect) -> Act
    ensures state { state_of chip.new ≡ (finish rv (done effect) (state_of chip.old)).0 }
    ensures out { put_out (state_of chip.old).turn result ≡ (finish rv (done effect) (state_of chip.old)).1 }
{
    let before = control(chip);
    let k = before.turn;
    let core = core(chip, k);
    set_core(chip, k, effect.core(core));
    set_on(chip, k, effect.goes_on());
    set_control(chip, before.passed());
    Act::Does {
        wrote: before.written(effect),
        said: effect.said(),
    }
}

// The core whose turn it is gets on.
fn act(chip: &mut Chip) -> Act
    ensures state { state_of chip.new ≡ (act rv (state_of chip.old)).0 }
    ensures out { put_out (state_of chip.old).turn result ≡ (act rv (state_of chip.old)).1 }
{
    let shared = control(chip);
    if shared.asked.is_some() {
        return Act::Waits;
    }
    if !is_on(chip, shared.turn) {
        set_control(chip, shared.passed());
        return Act::Skips;
    }
    match shared.attempt(core(chip, shared.turn)) {
        Ok(effect) => finish(chip, effect),
        Err(line) => {
            set_control(
                chip,
                Control {
                    asked: Some(line),
                    ..shared
                },
            );
            Act::Asks(line)
        }
    }
}

// The words said in this cycle: that of core k, if it says one.
fn say(said: &mut [u32], k: usize, word: Option<u32>)
    requires { (k < 4) × (length said.old ≡ 8) }
    ensures { said_of said.new ≡ somes (λ x. (k, x)) (word ∷ []) }
{
    let mut words = [0; 8];
    if let Some(word) = word {
        words[2 * k] = 1;
        words[2 * k + 1] = word;
    }
    said.copy_from_slice(&words);
}

// At most one line is written in a cycle.
fn writes(wrote: Option<Line>) -> [Option<Line>; 4]
    ensures { somes line_of result ≡ somes line_of (wrote ∷ []) }
{
    [wrote, None, None, None]
}

// The row of the interrupts that were taken, with the instruction of core k after them.
fn with_step(did: [Option<Event>; 8], k: usize) -> [Option<Event>; 8]
    requires { EmptyFrom 4 did }
    ensures { somes event_of result ≡ somes event_of did ++ step k ∷ [] }
{
    let mut row = did;
    row[4] = Some(Event::Step(k));
    row
}

// What is put out: the interrupts that were taken, and then what core k does in its turn.
fn put_out(did: [Option<Event>; 8], k: usize, act: Act, said: &mut [u32]) -> Out
    requires { (k < 4) × ((length said.old ≡ 8) × (EmptyFrom 4 did)) }
    ensures { out_of result said.new ≡ joined (only_did (somes event_of did)) (put_out k act) }
{
    match act {
        Act::Waits | Act::Skips => {
            say(said, k, None);
            Out {
                asks: None,
                writes: writes(None),
                did,
            }
        }
        Act::Asks(line) => {
            say(said, k, None);
            Out {
                asks: Some(line),
                writes: writes(None),
                did,
            }
        }
        Act::Does { wrote, said: word } => {
            say(said, k, word);
            Out {
                asks: None,
                writes: writes(wrote),
                did: with_step(did, k),
            }
        }
    }
}

// The steps of a cycle, on the words that are used.
fn steps(chip: &mut Chip, given: &[Line], up: [bool; 4], said: &mut [u32]) -> Out
    requires { length said.old ≡ 8 }
    ensures value { (state_of chip.new, out_of result said.new) ≡ cycle rv (state_of chip.old) (map line_of given.now) (λ k. slice_index_or up k false) }
    ensures long { length chip.new ≡ 169 }
{
    receive(chip, given);
    let did = take_interrupts(chip, up);
    let k = control(chip).turn;
    let act = act(chip);
    put_out(did, k, act, said)
}

fn cycle_in(chip: &mut [u32], given: &[Line], up: [bool; 4], said: &mut [u32]) -> Out
    requires { (16384 ≤ length chip.old) × (16 ≤ length said.old) }
    ensures done { (state_of chip.new, out_of result said.new) ≡ cycle rv (state_of chip.old) (map line_of given.now) (λ k. slice_index_or up k false) }
    ensures unused { drop 169 chip.new ≡ drop 169 chip.old }
    ensures unsaid { drop 8 said.new ≡ drop 8 said.old }
{
    let used = chip.first_chunk_mut().unwrap();
    steps(used, given, up, &mut said[0..8])
}

// One cycle: the lines that come and whose interrupt lines are up go in, and what is put out comes back, the words said in `said`, two for each core.
// Fewer than 16,384 words of the chip, or 16 for the words said, are refused, and nothing is changed.
pub fn cycle(
    chip: &mut [u32],
    given: &[Line],
    up: [bool; 4],
    said: &mut [u32],
) -> Result<Out, Fault>
    ensures { MatchResult result (λ o. (cycle_fault (length chip.old) (length said.old) ≡ None) × ((state_of chip.new, out_of o said.new) ≡ cycle rv (state_of chip.old) (map line_of given.now) (λ k. slice_index_or up k false)) × (drop 169 chip.new ≡ drop 169 chip.old) × (drop 8 said.new ≡ drop 8 said.old)) (λ f. (cycle_fault (length chip.old) (length said.old) ≡ Some f) × (chip.new ≡ chip.old) × (said.new ≡ said.old)) }
{
    if chip.len() < 16384 {
        return Err(Fault::ChipShort);
    }
    if said.len() < 16 {
        return Err(Fault::SaidShort);
    }
    Ok(cycle_in(chip, given, up, said))
}

// A new chip, on the words that are used.
fn begin(chip: &mut Chip, cores: usize, lines: u32)
    requires { cores ≤ 4 }
    ensures value { state_of chip.new ≡ fresh rv cores lines }
    ensures long { length chip.new ≡ 169 }
{
    for k in 0..4 {
        set_core(chip, k, Core::new(k as u32));
        set_on(chip, k, k < cores);
    }
    set_control(
        chip,
        Control {
            count: cores,
            size: lines,
            turn: 0,
            asked: None,
            fetched: None,
            loaded: None,
        },
    );
}

fn fresh_in(chip: &mut [u32], cores: usize, lines: u32)
    requires { (16384 ≤ length chip.old) × (cores ≤ 4) }
    ensures done { state_of chip.new ≡ fresh rv cores lines }
    ensures unused { drop 169 chip.new ≡ drop 169 chip.old }
{
    let used = chip.first_chunk_mut().unwrap();
    begin(used, cores, lines);
}

// A new chip of 1 to 4 cores, for a memory of so many lines. Fewer than 16,384 words, or another number of cores, are refused, and nothing is changed.
pub fn fresh(chip: &mut [u32], cores: usize, lines: u32) -> Result<(), Fault>
    ensures { MatchResult result (λ _. (fresh_fault (length chip.old) cores ≡ None) × (state_of chip.new ≡ fresh rv cores lines) × (drop 169 chip.new ≡ drop 169 chip.old)) (λ f. (fresh_fault (length chip.old) cores ≡ Some f) × (chip.new ≡ chip.old)) }
{
    if chip.len() < 16384 {
        return Err(Fault::ChipShort);
    }
    if !(1..=4).contains(&cores) {
        return Err(Fault::Cores);
    }
    fresh_in(chip, cores, lines);
    Ok(())
}

fn none_goes(chip: &Chip) -> bool
    ensures { result ≡ all_off (state_of chip.now) }
{
    !(0..4).any(|k| is_on(chip, k))
}

// Whether every core has stopped. Fewer than 16,384 words are refused.
pub fn all_stopped(chip: &[u32]) -> Result<bool, Fault>
    ensures { MatchResult result (λ b. (stopped_fault (length chip.now) ≡ None) × (b ≡ all_off (state_of chip.now))) (λ f. stopped_fault (length chip.now) ≡ Some f) }
{
    if chip.len() < 16384 {
        return Err(Fault::ChipShort);
    }
    Ok(none_goes(chip.first_chunk().unwrap()))
}
