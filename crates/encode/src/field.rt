// The fields of an instruction word by their sizes, and the codes that stand in them.
ghost use Rattle.std.specs.Prelude.{◌≡◌, ◌+◌, ◌*◌, ◌^◌, ◌<◌};
ghost use Rattle.words.specs.Word.{field};
ghost use Rattle.encode.specs.Encode.{amo_code, branch_code, load_code, operation_code, operation_high, store_code};

use rv32::instruction::*;
use words::word::bits;

// A number of SIZE bits.
#[derive(Clone, Copy)]
pub(crate) struct Field<const SIZE: u32> {
    pub(crate) number: u32,
    ghost below: { number < 2 ^ SIZE },
}

impl<const SIZE: u32> Field<SIZE> {
    // The bits of a word from bit `low`.
    pub(crate) fn of_bits(word: u32, low: u32) -> Self
        ensures { result.number ≡ field word low SIZE }
    {
        Field {
            number: bits(word, low, SIZE),
        }
    }
}

pub(crate) type Register = Field<5>;

pub(crate) type Funct3 = Field<3>;

pub(crate) type Funct7 = Field<7>;

pub(crate) type Opcode = Field<7>;

pub(crate) const LOAD: Opcode = Field { number: 0x03 };

pub(crate) const OP_IMM: Opcode = Field { number: 0x13 };

pub(crate) const AUIPC: Opcode = Field { number: 0x17 };

pub(crate) const STORE: Opcode = Field { number: 0x23 };

pub(crate) const AMO: Opcode = Field { number: 0x2f };

pub(crate) const OP: Opcode = Field { number: 0x33 };

pub(crate) const LUI: Opcode = Field { number: 0x37 };

pub(crate) const BRANCH: Opcode = Field { number: 0x63 };

pub(crate) const JALR: Opcode = Field { number: 0x67 };

pub(crate) const JAL: Opcode = Field { number: 0x6f };

impl From<BranchKind> for Funct3 {
    ghost from_gives = { λ kind f. f.number ≡ branch_code kind };

    fn from(kind: BranchKind) -> Self {
        match kind {
            BranchKind::Beq => Field { number: 0 },
            BranchKind::Bne => Field { number: 1 },
            BranchKind::Blt => Field { number: 4 },
            BranchKind::Bge => Field { number: 5 },
            BranchKind::Bltu => Field { number: 6 },
            BranchKind::Bgeu => Field { number: 7 },
        }
    }
}

impl From<LoadKind> for Funct3 {
    ghost from_gives = { λ kind f. f.number ≡ load_code kind };

    fn from(kind: LoadKind) -> Self {
        match kind {
            LoadKind::Lb => Field { number: 0 },
            LoadKind::Lh => Field { number: 1 },
            LoadKind::Lw => Field { number: 2 },
            LoadKind::Lbu => Field { number: 4 },
            LoadKind::Lhu => Field { number: 5 },
        }
    }
}

impl From<StoreKind> for Funct3 {
    ghost from_gives = { λ kind f. f.number ≡ store_code kind };

    fn from(kind: StoreKind) -> Self {
        match kind {
            StoreKind::Sb => Field { number: 0 },
            StoreKind::Sh => Field { number: 1 },
            StoreKind::Sw => Field { number: 2 },
        }
    }
}

impl From<Operation> for Funct3 {
    ghost from_gives = { λ operation f. f.number ≡ operation_code operation };

    fn from(operation: Operation) -> Self {
        match operation {
            Operation::Add | Operation::Sub => Field { number: 0 },
            Operation::Sll => Field { number: 1 },
            Operation::Slt => Field { number: 2 },
            Operation::Sltu => Field { number: 3 },
            Operation::Xor => Field { number: 4 },
            Operation::Srl | Operation::Sra => Field { number: 5 },
            Operation::Or => Field { number: 6 },
            Operation::And => Field { number: 7 },
        }
    }
}

impl From<Operation> for Funct7 {
    ghost from_gives = { λ operation f. f.number ≡ operation_high operation };

    fn from(operation: Operation) -> Self {
        match operation {
            Operation::Sub | Operation::Sra => Field { number: 32 },
            Operation::Add
            | Operation::Sll
            | Operation::Slt
            | Operation::Sltu
            | Operation::Xor
            | Operation::Srl
            | Operation::Or
            | Operation::And => Field { number: 0 },
        }
    }
}

impl From<AmoKind> for Funct7 {
    ghost from_gives = { λ kind f. f.number ≡ amo_code kind * 2 ^ 2 };

    fn from(kind: AmoKind) -> Self {
        match kind {
            AmoKind::AmoAdd => Field { number: 0 },
            AmoKind::AmoSwap => Field { number: 4 },
        }
    }
}
