// What each instruction needs of memory, and what it does.
ghost use Rattle.std.specs.Prelude.{◌≡◌, ◌/◌, ◌<◌, cond, Some, None};
ghost use Rattle.rv32.specs.Arithmetic.{signed_below};
ghost use Rattle.rv32.specs.Did.{cpu_after, on_after, said_after};
ghost use Rattle.rv32.specs.Execute.{at, combined, did, enters, execute, execute_rule, fetch, fetch_rule, load_size, loaded, loads, need, need_rule, next, operate, puts};
ghost use Rattle.rv32.specs.Execute.{reaches, register, returns, start, store_size, stored, swaps, taken, tells, with_lets, with_register};
ghost use Rattle.rv32.specs.Laws.{FetchedWithin, StoresWithin, Within};

use crate::core_state::*;
use crate::instruction::*;
use words::word::{byte_at, half_at, sign_extended, with_byte, with_half};

// The devices of a core.
const SAY: u32 = 0x4000_0000;

const LET: u32 = 0x4000_0004;

const EPC: u32 = 0x4000_0008;

fn is_below(x: u32, y: u32) -> bool
    ensures { result ≡ signed_below x y }
{
    x.cast_signed() < y.cast_signed()
}

fn reached(lines: u32, size: u32, address: u32) -> bool
    requires { 0 < size }
    ensures { result ≡ reaches lines size address }
{
    address / 32 < lines && address % size == 0
}

// The number of the word that so many bytes at an address lie in, if they lie in memory.
fn word_of(lines: u32, size: u32, address: u32) -> Option<u32>
    requires { 0 < size }
    ensures { result ≡ cond (reaches lines size address) (Some (address / 4)) None }
{
    reached(lines, size, address).then_some(address / 4)
}

impl Operation {
    fn result(self, x: u32, y: u32) -> u32
        ensures { result ≡ operate self x y }
    {
        match self {
            Operation::Add => x.wrapping_add(y),
            Operation::Sub => x.wrapping_sub(y),
            Operation::Sll => x << (y % 32),
            Operation::Slt => is_below(x, y) as u32,
            Operation::Sltu => (x < y) as u32,
            Operation::Xor => x ^ y,
            Operation::Srl => x >> (y % 32),
            Operation::Sra => (x.cast_signed() >> (y % 32)).cast_unsigned(),
            Operation::Or => x | y,
            Operation::And => x & y,
        }
    }
}

impl BranchKind {
    fn is_taken(self, x: u32, y: u32) -> bool
        ensures { result ≡ taken self x y }
    {
        match self {
            BranchKind::Beq => x == y,
            BranchKind::Bne => x != y,
            BranchKind::Blt => is_below(x, y),
            BranchKind::Bge => !is_below(x, y),
            BranchKind::Bltu => x < y,
            BranchKind::Bgeu => x >= y,
        }
    }
}

impl LoadKind {
    fn bytes(self) -> u32
        ensures { result ≡ load_size self }
    {
        match self {
            LoadKind::Lb | LoadKind::Lbu => 1,
            LoadKind::Lh | LoadKind::Lhu => 2,
            LoadKind::Lw => 4,
        }
    }

    fn of_word(self, address: u32, word: u32) -> u32
        ensures { result ≡ loaded self address word }
    {
        match self {
            LoadKind::Lb => sign_extended(byte_at(word, address), 8),
            LoadKind::Lh => sign_extended(half_at(word, address), 16),
            LoadKind::Lw => word,
            LoadKind::Lbu => byte_at(word, address),
            LoadKind::Lhu => half_at(word, address),
        }
    }
}

impl StoreKind {
    fn bytes(self) -> u32
        ensures { result ≡ store_size self }
    {
        match self {
            StoreKind::Sb => 1,
            StoreKind::Sh => 2,
            StoreKind::Sw => 4,
        }
    }

    fn into_word(self, address: u32, word: u32, x: u32) -> u32
        ensures { result ≡ stored self address word x }
    {
        match self {
            StoreKind::Sb => with_byte(word, address, x),
            StoreKind::Sh => with_half(word, address, x),
            StoreKind::Sw => x,
        }
    }
}

impl AmoKind {
    fn result(self, word: u32, x: u32) -> u32
        ensures { result ≡ combined self word x }
    {
        match self {
            AmoKind::AmoAdd => word.wrapping_add(x),
            AmoKind::AmoSwap => x,
        }
    }
}

impl Core {
    // A new core, by its number.
    pub fn new(number: u32) -> Self
        ensures { result ≡ start number }
    {
        let mut registers = [0; 32];
        registers[10] = number;
        Core {
            pc: 0,
            registers,
            epc: 0,
            lets: false,
        }
    }

    // Register n; 0 for one that is not there.
    pub fn get(self, n: usize) -> u32
        ensures { result ≡ register self n }
    {
        match n {
            0 => 0,
            1..=31 => self.registers[n],
            _ => 0,
        }
    }

    // The core with x in register n; x0, and one that is not there, stay.
    pub fn with(self, n: usize, x: u32) -> Self
        ensures { result ≡ with_register self n x }
    {
        if n == 0 {
            return self;
        }
        let mut core = self;
        if n < 32 {
            core.registers[n] = x;
        }
        core
    }

    fn jumped(self, pc: u32) -> Self
        ensures { result ≡ at self pc }
    {
        Core { pc, ..self }
    }

    fn stepped(self) -> Self
        ensures { result ≡ next self }
    {
        self.jumped(self.pc.wrapping_add(4))
    }

    fn letting(self, lets: bool) -> Self
        ensures { result ≡ with_lets self lets }
    {
        Core { lets, ..self }
    }

    // The core that has taken an interrupt.
    pub fn interrupted(self) -> Self
        ensures { result ≡ enters self }
    {
        Core {
            pc: 0x40,
            epc: self.pc,
            lets: false,
            ..self
        }
    }

    fn resumed(self) -> Self
        ensures { result ≡ returns self }
    {
        Core {
            pc: self.epc,
            lets: true,
            ..self
        }
    }

    fn load(self, lines: u32, kind: LoadKind, rd: usize, address: u32, word: u32) -> Effect
        ensures { result ≡ loads lines self kind rd address word }
    {
        if reached(lines, kind.bytes(), address) {
            Effect::Goes {
                core: self.with(rd, kind.of_word(address, word)).stepped(),
            }
        } else if kind.bytes() == 4 && address == EPC {
            Effect::Goes {
                core: self.with(rd, self.epc).stepped(),
            }
        } else {
            Effect::Stops
        }
    }

    fn tell(self, address: u32, x: u32) -> Effect
        ensures { result ≡ tells self address x }
    {
        match (address, x) {
            (SAY, _) => Effect::Says {
                word: x,
                core: self.stepped(),
            },
            (LET, 0) => Effect::Goes {
                core: self.stepped().letting(false),
            },
            (LET, 1) => Effect::Goes {
                core: self.stepped().letting(true),
            },
            _ => Effect::Stops,
        }
    }

    fn store(self, lines: u32, kind: StoreKind, address: u32, x: u32, word: u32) -> Effect
        ensures { result ≡ puts lines self kind address x word }
    {
        if reached(lines, kind.bytes(), address) {
            Effect::Stores {
                number: address / 4,
                value: kind.into_word(address, word, x),
                core: self.stepped(),
            }
        } else if kind.bytes() == 4 {
            self.tell(address, x)
        } else {
            Effect::Stops
        }
    }

    fn swap(self, lines: u32, kind: AmoKind, rd: usize, address: u32, x: u32, word: u32) -> Effect
        ensures { result ≡ swaps lines self kind rd address x word }
    {
        if reached(lines, 4, address) {
            Effect::Stores {
                number: address / 4,
                value: kind.result(word, x),
                core: self.with(rd, word).stepped(),
            }
        } else {
            Effect::Stops
        }
    }

    fn effect(self, lines: u32, instruction: Instruction, word: u32) -> Effect
        ensures value { result ≡ execute_rule lines self instruction word }
        ensures within { StoresWithin lines result }
    {
        match instruction {
            Instruction::Lui { rd, value } => Effect::Goes {
                core: self.with(rd, value).stepped(),
            },
            Instruction::Auipc { rd, offset } => Effect::Goes {
                core: self.with(rd, self.pc.wrapping_add(offset)).stepped(),
            },
            Instruction::Jal { rd, offset } => Effect::Goes {
                core: self
                    .with(rd, self.pc.wrapping_add(4))
                    .jumped(self.pc.wrapping_add(offset)),
            },
            Instruction::Jalr { rd, rs1, offset } => {
                let target = self.get(rs1).wrapping_add(offset) / 2 * 2;
                Effect::Goes {
                    core: self.with(rd, self.pc.wrapping_add(4)).jumped(target),
                }
            }
            Instruction::Branch {
                kind,
                rs1,
                rs2,
                offset,
            } => {
                let step = if kind.is_taken(self.get(rs1), self.get(rs2)) {
                    offset
                } else {
                    4
                };
                Effect::Goes {
                    core: self.jumped(self.pc.wrapping_add(step)),
                }
            }
            Instruction::Load {
                kind,
                rd,
                rs1,
                offset,
            } => self.load(lines, kind, rd, self.get(rs1).wrapping_add(offset), word),
            Instruction::Store {
                kind,
                rs1,
                rs2,
                offset,
            } => self.store(
                lines,
                kind,
                self.get(rs1).wrapping_add(offset),
                self.get(rs2),
                word,
            ),
            Instruction::OpImm {
                operation,
                rd,
                rs1,
                value,
            } => Effect::Goes {
                core: self
                    .with(rd, operation.result(self.get(rs1), value))
                    .stepped(),
            },
            Instruction::Op {
                operation,
                rd,
                rs1,
                rs2,
            } => Effect::Goes {
                core: self
                    .with(rd, operation.result(self.get(rs1), self.get(rs2)))
                    .stepped(),
            },
            Instruction::Amo { kind, rd, rs1, rs2 } => self.swap(
                lines,
                kind,
                rd,
                self.get(rs1),
                self.get(rs2),
                word,
            ),
            Instruction::Fence => Effect::Goes {
                core: self.stepped(),
            },
            Instruction::Mret => Effect::Goes {
                core: self.resumed(),
            },
            Instruction::Ecall | Instruction::Ebreak | Instruction::Illegal => Effect::Stops,
        }
    }

    fn counter(self, lines: u32) -> Option<u32>
        ensures value { result ≡ fetch_rule lines self }
        ensures within { FetchedWithin lines result }
    {
        word_of(lines, 4, self.pc)
    }

    fn data(self, lines: u32, instruction: Instruction) -> Need
        ensures value { result ≡ need_rule lines self instruction }
        ensures within { Within lines result }
    {
        match instruction {
            Instruction::Load {
                kind,
                rs1,
                offset,
                ..
            } => {
                let number = word_of(lines, kind.bytes(), self.get(rs1).wrapping_add(offset));
                number.map_or(Need::Nothing, Need::Read)
            }
            Instruction::Store {
                kind,
                rs1,
                offset,
                ..
            } => {
                let number = word_of(lines, kind.bytes(), self.get(rs1).wrapping_add(offset));
                number.map_or(Need::Nothing, Need::Write)
            }
            Instruction::Amo { rs1, .. } => {
                let number = word_of(lines, 4, self.get(rs1));
                number.map_or(Need::Nothing, Need::Write)
            }
            _ => Need::Nothing,
        }
    }

    // The number of the word that the next instruction is fetched from, in a memory of so many lines; none where pc stops the core.
    pub fn fetches(self, lines: u32) -> Option<u32>
        ensures value { result ≡ fetch lines self }
        ensures within { FetchedWithin lines result }
    {
        self.counter(lines)
    }

    // The word of memory that an instruction needs.
    pub fn needs(self, lines: u32, instruction: Instruction) -> Need
        ensures value { result ≡ need lines self instruction }
        ensures within { Within lines result }
    {
        self.data(lines, instruction)
    }

    // What an instruction does, given the word of memory that it needs.
    pub fn executes(self, lines: u32, instruction: Instruction, word: u32) -> Effect
        ensures value { result ≡ execute lines self instruction word }
        ensures within { StoresWithin lines result }
    {
        self.effect(lines, instruction, word)
    }
}

impl Effect {
    // The registers of a core after it; a core that stops keeps what it had.
    pub fn core(self, before: Core) -> Core
        ensures { result ≡ cpu_after before (did self) }
    {
        match self {
            Effect::Goes { core } | Effect::Stores { core, .. } | Effect::Says { core, .. } => core,
            Effect::Stops => before,
        }
    }

    // Whether the core goes on.
    pub fn goes_on(self) -> bool
        ensures { result ≡ on_after (did self) }
    {
        !matches!(self, Effect::Stops)
    }

    // The word that is said, if one is.
    pub fn said(self) -> Option<u32>
        ensures { result ≡ said_after (did self) }
    {
        match self {
            Effect::Says { word, .. } => Some(word),
            Effect::Goes { .. } | Effect::Stores { .. } | Effect::Stops => None,
        }
    }
}
