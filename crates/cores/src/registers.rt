// The cores' registers in lent words, 35 for each core, and whether each core goes, a word for each.
ghost use Rattle.std.specs.Prelude.{ℕ, Bool, List, slice_index};
ghost use Rattle.rv32.specs.declared.core_state.Core.{Core};
ghost use Rattle.cores.specs.Registers.{core_of, flag};

use rv32::core_state::Core;
use words::table::Table;

// The registers of each core: pc, where the last interrupt came from, whether interrupts are let, and x0 to x31.
pub struct Registers;

impl Table for Registers {
    type Value = Core;

    const SIZE: usize = 35;

    ghost SIZE = { 35 };

    ghost Meaning = { Core };

    ghost means = { λ _ core. core };

    ghost said = { λ _ words. core_of words };

    fn read(block: &[u32]) -> Core {
        let mut registers = [0; 32];
        registers.copy_from_slice(&block[3..35]);
        Core {
            pc: block[0],
            registers,
            epc: block[1],
            lets: block[2] != 0,
        }
    }

    fn write(block: &mut [u32], core: Core) {
        block[0..3].copy_from_slice(&[core.pc, core.epc, core.lets as u32]);
        block[3..35].copy_from_slice(&core.registers);
    }
}

// A word for each that says yes or no: 0 is no.
pub struct Flags;

impl Table for Flags {
    type Value = bool;

    const SIZE: usize = 1;

    ghost SIZE = { 1 };

    ghost Meaning = { Bool };

    ghost means = { λ _ yes. yes };

    ghost said = { λ _ words. flag (slice_index words 0) };

    fn read(block: &[u32]) -> bool {
        block[0] != 0
    }

    fn write(block: &mut [u32], yes: bool) {
        block[0] = yes as u32;
    }
}
