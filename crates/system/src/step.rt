// One cycle of the chip on the board, both in lent words.
ghost use Rattle.std.specs.Prelude.{◌≡◌, ◌≤◌, length};
ghost use Rattle.system.specs.Cycle.{Fitting, Next, choice};
ghost use Rattle.system.specs.Steady.{FittingSteady, NextSteady};

use chips::LentChip;
use cores::port::Out;

// One cycle, in which these places are given and these interrupt lines are up.
pub(crate) fn cycle<C: LentChip>(
    board: &mut [u32],
    lines: usize,
    chip: &mut [u32],
    places: &[u8],
    up: [bool; 4],
    said: &mut [u32],
) -> Out
    requires { (16384 ≤ length chip.old) × ((16 ≤ length said.old) × (Fitting C.lent lines chip.old board.old (choice places.now up))) }
    ensures { Next C.lent lines chip.old board.old (choice places.now up) result said.new chip.new board.new }
{
    let come = board::given(board, lines, places).unwrap();
    let out = C::cycle(chip, come.as_slice(), up, said).unwrap();
    board::after(board, lines, places, &out).unwrap();
    out
}

// One cycle on the steady board.
pub(crate) fn cycle_steady<C: LentChip>(
    board: &mut [u32],
    lines: usize,
    late: u32,
    chip: &mut [u32],
    said: &mut [u32],
) -> Out
    requires { (16384 ≤ length chip.old) × ((16 ≤ length said.old) × (FittingSteady C.lent lines chip.old board.old)) }
    ensures { NextSteady C.lent lines late chip.old board.old result said.new chip.new board.new }
{
    let come = board::due(board, lines).unwrap();
    let out = C::cycle(chip, come.as_slice(), [false; 4], said).unwrap();
    board::after_steady(board, lines, late, &out).unwrap();
    out
}
