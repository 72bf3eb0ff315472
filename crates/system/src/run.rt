// The chip on the board, from power-on, by choices.
ghost use Rattle.std.specs.Prelude.{◌≡◌, ◌+◌, ◌*◌, ◌≤◌, length, Ok, Err};
ghost use Rattle.image.specs.Check.{check_of};
ghost use Rattle.image.specs.Memory.{Fits, header_of};
ghost use Rattle.board.specs.Layout.{memory_of};
ghost use Rattle.system.specs.Run.{AcceptedAs, CutShort, Finished, Outcome, PoweredOn, Untouched, choices_in, memory_in};
ghost use Rattle.system.specs.declared.run.Stopped.TheVariants.{Refused, Unheard};

use crate::cycles::run_cycles;
use crate::listener::{self, Listener};
use chips::LentChip;
use image::{Header, Refusal, check, load};

// How a run ended: after so many cycles, and whether every core has stopped.
#[derive(Clone, Copy)]
pub struct Ended {
    pub cycles: u64,
    pub stopped: bool,
}

// Why a run does not come to its end: what was brought is refused, or the listener had no room.
#[derive(Clone, Copy)]
pub enum Stopped {
    Refused(Refusal),
    Unheard,
}

impl From<Refusal> for Stopped {
    ghost from_gives = { λ f r. r ≡ Refused f };

    fn from(refusal: Refusal) -> Stopped {
        Stopped::Refused(refusal)
    }
}

impl From<listener::Unheard> for Stopped {
    ghost from_gives = { λ _ r. r ≡ Unheard };

    fn from(_: listener::Unheard) -> Stopped {
        Stopped::Unheard
    }
}

// Power-on with a memory: its words come first on the board, nobody waits, and the chip is new.
pub(crate) fn power_on<C: LentChip>(
    memory: &[u8],
    header: Header,
    board: &mut [u32],
    chip: &mut [u32],
)
    requires { (header_of memory.now ≡ Ok header) × ((Fits memory.now header) × ((8 * header.lines + 1024 ≤ length board.old) × (16384 ≤ length chip.old))) }
    ensures { (PoweredOn C.lent header chip.new board.new) × (memory_of header.lines board.new ≡ memory_in header memory.now) }
{
    load(memory, board).unwrap();
    board::start(board, header.lines).unwrap();
    C::fresh(chip, header.cores, header.lines as u32).unwrap();
}

// Runs a memory on the chip, a cycle for each of the choices, and tells a listener what is said and done.
// What is brought is tested first, and a refusal changes nothing.
pub fn run<C: LentChip, L: Listener>(
    memory: &[u8],
    choices: &[u8],
    board: &mut [u32],
    chip: &mut [u32],
    said: &mut [u32],
    listener: &mut L,
) -> Result<Ended, Stopped>
    ensures { Outcome (λ e. AcceptedAs (check_of memory.now choices.now (length board.old) (length chip.old) (length said.old)) (λ h. Finished C.lent h memory.now choices.now e chip.new board.new (L.heard listener.old) (L.heard listener.new))) (λ f. (check_of memory.now choices.now (length board.old) (length chip.old) (length said.old) ≡ Err f) × Untouched chip.old chip.new board.old board.new said.old said.new (L.heard listener.old) (L.heard listener.new)) (AcceptedAs (check_of memory.now choices.now (length board.old) (length chip.old) (length said.old)) (λ h. CutShort C.lent h.cores (memory_in h memory.now) (choices_in choices.now) (L.heard listener.old) (L.heard listener.new))) result }
{
    let header = check(memory, choices, board.len(), chip.len(), said.len())?;
    power_on::<C>(memory, header, board, chip);
    let cycles = run_cycles::<C, L>(header, choices, board, chip, said, listener)?;
    let stopped = C::all_stopped(chip).unwrap();
    Ok(Ended { cycles, stopped })
}
