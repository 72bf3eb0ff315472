// What holds of the chip for every memory, and however lines come and interrupts are raised: each is the contract of a function.
ghost use Rattle.cores.specs.Kept.{AlwaysInside, Drained};
ghost use Rattle.cores.specs.Promise.{Promises};
ghost use Rattle.cores.specs.Rv32.{rv32};
ghost use Rattle.soc.specs.Runs.{Say, table};
ghost use Rattle.soc.specs.Rv.{rv};
ghost use Rattle.soc.specs.Soc.{chip};
ghost use Rattle.soc.specs.Stopped.{all_off};

// It keeps all eight promises.
pub fn keeps_promises()
    ensures { Promises rv32 (chip rv) }
{}

// It asks for and writes lines of memory only, with room in the row; and once every core has stopped memory is the machines'.
pub fn keeps_to_memory()
    ensures inside { AlwaysInside (chip rv) }
    ensures drained { Drained (chip rv) all_off 0 }
{}

// Small programs run on the chip with a memory of eight lines, computed: what they say.
pub fn programs_run()
    ensures { Say 8 table }
{}
