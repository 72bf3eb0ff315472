// Machines that take turns at one memory, the board around a chip, what a chip promises, and what it owes for that.
// A theorem over every chip cannot stand on a function; its instance for a small chip can, so that what a chip owes is known to be payable.
#![tactic(auto)]

ghost use Rattle.cores.specs.Programs.{ProgramsSay};
ghost use Rattle.cores.specs.Promise.{AllGoOn, CleanAfter, Few, OneEach, SameSaid, Taken, WhenRaised, WhereLet};
ghost use Rattle.cores.specs.Runs.{ToyRuns};
ghost use Rattle.cores.specs.Toy.{toy_chip, toy_isa};

pub mod port;
pub mod registers;

// What each core of the toy chip has said is what its machine says, in the order in which the chip has done their events.
pub fn says_the_same()
    ensures { SameSaid toy_isa toy_chip }
{}

// A core takes no interrupt in a cycle in which its line is down.
pub fn interrupts_when_raised()
    ensures { WhenRaised toy_isa toy_chip }
{}

// A core takes an interrupt only where the manual lets it, and never after its end.
pub fn interrupts_where_let()
    ensures { WhereLet toy_isa toy_chip }
{}

// Every core does one more instruction in every 256 (l + 1) cycles, until it stops, where lines come within l cycles.
pub fn cores_go_on()
    ensures { AllGoOn toy_isa toy_chip }
{}

// A core whose line stays up takes an interrupt in time.
pub fn interrupts_taken()
    ensures { Taken toy_isa toy_chip }
{}

// A core does at most one instruction in a cycle.
pub fn one_at_a_time()
    ensures { OneEach toy_isa toy_chip }
{}

// At most sixteen lines are waited for, none twice, none outside; memory stays one of words.
pub fn few_wait()
    ensures { Few toy_isa toy_chip }
{}

// In time after all cores have stopped, memory outside is the manual's.
pub fn memory_clean()
    ensures { CleanAfter toy_isa toy_chip }
{}

// One run of the toy chip, computed: it asks for a line and waits, says a word, stores one, writes it back, takes an interrupt, and stops.
pub fn toy_runs()
    ensures { ToyRuns }
{}

// What the machines say that run the small programs of the table, with interrupts only where they are let.
pub fn programs_say()
    ensures { ProgramsSay }
{}
