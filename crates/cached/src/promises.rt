// What holds of the chip for every memory, and however lines come and interrupts are raised: each is the contract of a function.
ghost use Rattle.cores.specs.Kept.{AlwaysInside, Drained};
ghost use Rattle.cores.specs.Promise.{Promises};
ghost use Rattle.cores.specs.Rv32.{rv32};
ghost use Rattle.cached.specs.Runs.{Say, WritesBack, table};
ghost use Rattle.cached.specs.Rv.{rv};
ghost use Rattle.cached.specs.Soc.{chip};
ghost use Rattle.cached.specs.Stopped.{all_off};

// It keeps all eight promises.
pub fn keeps_promises()
    ensures { Promises rv32 (chip rv) }
{}

// It asks for and writes lines of memory only, with room in the row; and 8,192 cycles after every core has stopped memory is the machines'.
pub fn keeps_to_memory()
    ensures inside { AlwaysInside (chip rv) }
    ensures drained { Drained (chip rv) all_off 8192 }
{}

// Small programs run on the chip with a memory of eight lines, computed: what they say, and that a stored word goes to memory once the core has stopped.
pub fn programs_run()
    ensures { (Say 8 table) × (WritesBack) }
{}
