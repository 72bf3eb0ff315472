// The instructions. Registers go by number; an immediate is a word, with its sign extended.

#[derive(Clone, Copy)]
pub enum BranchKind {
    Beq,
    Bne,
    Blt,
    Bge,
    Bltu,
    Bgeu,
}

#[derive(Clone, Copy)]
pub enum LoadKind {
    Lb,
    Lh,
    Lw,
    Lbu,
    Lhu,
}

#[derive(Clone, Copy)]
pub enum StoreKind {
    Sb,
    Sh,
    Sw,
}

// What is computed from a register and a register or an immediate; no instruction subtracts an immediate.
#[derive(Clone, Copy)]
pub enum Operation {
    Add,
    Sub,
    Sll,
    Slt,
    Sltu,
    Xor,
    Srl,
    Sra,
    Or,
    And,
}

#[derive(Clone, Copy)]
pub enum AmoKind {
    AmoAdd,
    AmoSwap,
}

#[derive(Clone, Copy)]
pub enum Instruction {
    Lui {
        rd: usize,
        value: u32,
    },
    Auipc {
        rd: usize,
        offset: u32,
    },
    Jal {
        rd: usize,
        offset: u32,
    },
    Jalr {
        rd: usize,
        rs1: usize,
        offset: u32,
    },
    Branch {
        kind: BranchKind,
        rs1: usize,
        rs2: usize,
        offset: u32,
    },
    Load {
        kind: LoadKind,
        rd: usize,
        rs1: usize,
        offset: u32,
    },
    Store {
        kind: StoreKind,
        rs1: usize,
        rs2: usize,
        offset: u32,
    },
    OpImm {
        operation: Operation,
        rd: usize,
        rs1: usize,
        value: u32,
    },
    Op {
        operation: Operation,
        rd: usize,
        rs1: usize,
        rs2: usize,
    },
    Amo {
        kind: AmoKind,
        rd: usize,
        rs1: usize,
        rs2: usize,
    },
    Fence,
    Ecall,
    Ebreak,
    Mret,
    // any other word
    Illegal,
}
