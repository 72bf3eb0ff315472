// All cycles of choices, one after another, told to a listener.
ghost use Rattle.std.specs.Prelude.{◌≡◌, ◌≤◌, length, MatchResult};
ghost use Rattle.board.specs.Layout.{memory_of};
ghost use Rattle.system.specs.Run.{CutShort, PoweredOn, Ran, choices_in, lines_up};

use crate::listener::{Listener, Unheard};
use crate::step::cycle;
use chips::LentChip;
use image::{Header, cycle_at, is_up};

// The interrupt lines of the four cores that a byte raises.
fn lines_up(byte: u8) -> [bool; 4]
    ensures { result ≡ lines_up byte }
{
    [
        is_up(byte, 0),
        is_up(byte, 1),
        is_up(byte, 2),
        is_up(byte, 3),
    ]
}

// Does every cycle of the choices from power-on, and says how many they were.
pub(crate) fn run_cycles<C: LentChip, L: Listener>(
    header: Header,
    choices: &[u8],
    board: &mut [u32],
    chip: &mut [u32],
    said: &mut [u32],
    listener: &mut L,
) -> Result<u64, Unheard>
    requires { (PoweredOn C.lent header chip.old board.old) × ((16384 ≤ length chip.old) × (16 ≤ length said.old)) }
    ensures { MatchResult result (λ k. (k ≡ length (choices_in choices.now)) × Ran C.lent header.cores header.lines (memory_of header.lines board.old) (choices_in choices.now) chip.new board.new (L.heard listener.old) (L.heard listener.new)) (λ _. CutShort C.lent header.cores (memory_of header.lines board.old) (choices_in choices.now) (L.heard listener.old) (L.heard listener.new)) }
{
    // A cursor and not the iterator over the records: the cursor's place in the bytes bounds the count of cycles, which the iterator's contract does not.
    let mut at = 0;
    let mut done: u64 = 0;
    while let Some(record) = cycle_at(choices, at) {
        let up = lines_up(record.raised);
        let out = cycle::<C>(board, header.lines, chip, record.given, up, said);
        listener.hear(&out, said)?;
        at = record.end;
        done += 1;
    }
    Ok(done)
}
