// What each chip promises, for every memory, and however lines come and interrupts are raised: each promise is the contract of a function.
ghost use Rattle.cores.specs.Promise.{AllGoOn, CleanAfter, Few, OneEach, SameSaid, Taken, WhenRaised, WhereLet};
ghost use Rattle.cores.specs.Rv32.{rv32};

use crate::LentChip;

// What each core has said is what its machine says, where RV32I machines take turns at one memory in the order in which the chip has done their events.
pub fn says_the_same<C: LentChip>()
    ensures { SameSaid rv32 C.lent.chip }
{}

// A core takes no interrupt in a cycle in which its line is down.
pub fn interrupts_when_raised<C: LentChip>()
    ensures { WhenRaised rv32 C.lent.chip }
{}

// A core takes an interrupt only where the manual lets it, and never after its end.
pub fn interrupts_where_let<C: LentChip>()
    ensures { WhereLet rv32 C.lent.chip }
{}

// Every core does one more instruction in every 256 (l + 1) cycles, until it stops, where lines come within l cycles.
pub fn cores_go_on<C: LentChip>()
    ensures { AllGoOn rv32 C.lent.chip }
{}

// A core whose line stays up takes an interrupt in time.
pub fn interrupts_taken<C: LentChip>()
    ensures { Taken rv32 C.lent.chip }
{}

// A core does at most one instruction in a cycle.
pub fn one_at_a_time<C: LentChip>()
    ensures { OneEach rv32 C.lent.chip }
{}

// At most sixteen lines are waited for, none twice, none outside; memory stays one of words.
pub fn few_wait<C: LentChip>()
    ensures { Few rv32 C.lent.chip }
{}

// In time after all cores have stopped, memory outside is the manual's.
pub fn memory_clean<C: LentChip>()
    ensures { CleanAfter rv32 C.lent.chip }
{}
