// The chip on the steady board, from power-on: each line comes so many cycles after the next, and no interrupt line is up.
ghost use Rattle.std.specs.Prelude.{◌≡◌, ◌+◌, ◌≤◌, [], length, Err, MatchResult};
ghost use Rattle.image.specs.Check.{check_of};
ghost use Rattle.board.specs.Layout.{memory_of};
ghost use Rattle.system.specs.Run.{AcceptedAs, Outcome, PoweredOn, Untouched, memory_in};
ghost use Rattle.system.specs.Steady.{CutSteady, DoneSteady, FinishedSteady, FromThere, RanSteady, UnderWay};

use crate::listener::{Listener, Unheard};
use crate::run::{Ended, Stopped, power_on};
use crate::step::cycle_steady;
use chips::LentChip;
use image::{Header, check_steady};

// Does so many cycles from power-on, or fewer, till every core has stopped; and says how many they were.
fn run_cycles_steady<C: LentChip, L: Listener>(
    header: Header,
    late: u32,
    cycles: u64,
    board: &mut [u32],
    chip: &mut [u32],
    said: &mut [u32],
    listener: &mut L,
) -> Result<u64, Unheard>
    requires { (PoweredOn C.lent header chip.old board.old) × ((16384 ≤ length chip.old) × (16 ≤ length said.old)) }
    ensures { MatchResult result (λ k. DoneSteady C.lent header.cores header.lines (memory_of header.lines board.old) late cycles k chip.new board.new (L.heard listener.old) (L.heard listener.new)) (λ _. CutSteady C.lent header.cores (memory_of header.lines board.old) late (L.heard listener.old) (L.heard listener.new)) }
{
    for done in 0..cycles {
        if C::all_stopped(chip).unwrap() {
            return Ok(done);
        }
        let out = cycle_steady::<C>(board, header.lines, late, chip, said);
        listener.hear(&out, said)?;
    }
    Ok(cycles)
}

// Does so many cycles more.
fn go_on_steady<C: LentChip, L: Listener>(
    header: Header,
    late: u32,
    cycles: u64,
    board: &mut [u32],
    chip: &mut [u32],
    said: &mut [u32],
    listener: &mut L,
) -> Result<(), Unheard>
    requires { (UnderWay C.lent header.cores header.lines late chip.old board.old (L.heard listener.old)) × ((16384 ≤ length chip.old) × (16 ≤ length said.old)) }
    ensures { FromThere C.lent header.cores header.lines late chip.old board.old (L.heard listener.old) (λ m k start. MatchResult result (λ _. RanSteady C.lent header.cores header.lines m late (k + cycles) chip.new board.new start (L.heard listener.new)) (λ _. CutSteady C.lent header.cores m late start (L.heard listener.new))) }
{
    for _ in 0..cycles {
        let out = cycle_steady::<C>(board, header.lines, late, chip, said);
        listener.hear(&out, said)?;
    }
    Ok(())
}

// A run from power-on: for so many cycles, or till every core has stopped and all that was newer in the chip is in memory.
fn run_to_end<C: LentChip, L: Listener>(
    header: Header,
    late: u32,
    cycles: u64,
    board: &mut [u32],
    chip: &mut [u32],
    said: &mut [u32],
    listener: &mut L,
) -> Result<Ended, Unheard>
    requires { (PoweredOn C.lent header chip.old board.old) × ((16384 ≤ length chip.old) × (16 ≤ length said.old)) }
    ensures { MatchResult result (λ e. FinishedSteady C.lent C.DRAIN header.cores header.lines (memory_of header.lines board.old) late cycles e chip.new board.new (L.heard listener.old) (L.heard listener.new)) (λ _. CutSteady C.lent header.cores (memory_of header.lines board.old) late (L.heard listener.old) (L.heard listener.new)) }
{
    let done = run_cycles_steady::<C, L>(header, late, cycles, board, chip, said, listener)?;
    if !C::all_stopped(chip).unwrap() {
        return Ok(Ended {
            cycles: done,
            stopped: false,
        });
    }
    go_on_steady::<C, L>(header, late, C::DRAIN, board, chip, said, listener)?;
    Ok(Ended {
        cycles: done,
        stopped: true,
    })
}

// Runs a memory on the chip and the steady board, for so many cycles or till every core has stopped, and tells a listener what is said and done.
// Once every core has stopped it goes on till all that was newer in the chip is in memory, which is then that of the machines.
// What is brought is tested first, and a refusal changes nothing.
pub fn run_steady<C: LentChip, L: Listener>(
    memory: &[u8],
    late: u32,
    cycles: u64,
    board: &mut [u32],
    chip: &mut [u32],
    said: &mut [u32],
    listener: &mut L,
) -> Result<Ended, Stopped>
    ensures { Outcome (λ e. AcceptedAs (check_of memory.now [] (length board.old) (length chip.old) (length said.old)) (λ h. FinishedSteady C.lent C.DRAIN h.cores h.lines (memory_in h memory.now) late cycles e chip.new board.new (L.heard listener.old) (L.heard listener.new))) (λ f. (check_of memory.now [] (length board.old) (length chip.old) (length said.old) ≡ Err f) × Untouched chip.old chip.new board.old board.new said.old said.new (L.heard listener.old) (L.heard listener.new)) (AcceptedAs (check_of memory.now [] (length board.old) (length chip.old) (length said.old)) (λ h. CutSteady C.lent h.cores (memory_in h memory.now) late (L.heard listener.old) (L.heard listener.new))) result }
{
    let header = check_steady(memory, board.len(), chip.len(), said.len())?;
    power_on::<C>(memory, header, board, chip);
    Ok(run_to_end::<C, L>(header, late, cycles, board, chip, said, listener)?)
}
