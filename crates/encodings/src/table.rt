// Instructions with their words, made by tools/encodings.py: the words are those of GNU as.
use crate::{Encoding, Marked};
use encode::order::Order;
use rv32::instruction::*;

pub const TABLE: [Encoding; 61] = [
    // lui x31, 0xfffff
    Encoding {
        instruction: Instruction::Lui {
            rd: 31,
            value: 0xfffff000,
        },
        word: 0xffffffb7,
    },
    // lui x1, 0x1
    Encoding {
        instruction: Instruction::Lui {
            rd: 1,
            value: 0x1000,
        },
        word: 0x000010b7,
    },
    // auipc x0, 0x80000
    Encoding {
        instruction: Instruction::Auipc {
            rd: 0,
            offset: 0x80000000,
        },
        word: 0x80000017,
    },
    // auipc x30, 0x12345
    Encoding {
        instruction: Instruction::Auipc {
            rd: 30,
            offset: 0x12345000,
        },
        word: 0x12345f17,
    },
    // jal x1, .+2048
    Encoding {
        instruction: Instruction::Jal {
            rd: 1,
            offset: 0x800,
        },
        word: 0x001000ef,
    },
    // jal x0, .-2
    Encoding {
        instruction: Instruction::Jal {
            rd: 0,
            offset: 0xfffffffe,
        },
        word: 0xfffff06f,
    },
    // jal x31, .+1048574
    Encoding {
        instruction: Instruction::Jal {
            rd: 31,
            offset: 0xffffe,
        },
        word: 0x7fffffef,
    },
    // jal x16, .-1048576
    Encoding {
        instruction: Instruction::Jal {
            rd: 16,
            offset: 0xfff00000,
        },
        word: 0x8000086f,
    },
    // jal x5, .+370090
    Encoding {
        instruction: Instruction::Jal {
            rd: 5,
            offset: 0x5a5aa,
        },
        word: 0x5aa5a2ef,
    },
    // jalr x0, 0(x1)
    Encoding {
        instruction: Instruction::Jalr {
            rd: 0,
            rs1: 1,
            offset: 0x0,
        },
        word: 0x00008067,
    },
    // jalr x31, -1(x30)
    Encoding {
        instruction: Instruction::Jalr {
            rd: 31,
            rs1: 30,
            offset: 0xffffffff,
        },
        word: 0xffff0fe7,
    },
    // jalr x1, 2047(x2)
    Encoding {
        instruction: Instruction::Jalr {
            rd: 1,
            rs1: 2,
            offset: 0x7ff,
        },
        word: 0x7ff100e7,
    },
    // beq x0, x31, .+4094
    Encoding {
        instruction: Instruction::Branch {
            kind: BranchKind::Beq,
            rs1: 0,
            rs2: 31,
            offset: 0xffe,
        },
        word: 0x7ff00fe3,
    },
    // beq x17, x18, .-2050
    Encoding {
        instruction: Instruction::Branch {
            kind: BranchKind::Beq,
            rs1: 17,
            rs2: 18,
            offset: 0xfffff7fe,
        },
        word: 0xff288f63,
    },
    // bne x1, x30, .-4096
    Encoding {
        instruction: Instruction::Branch {
            kind: BranchKind::Bne,
            rs1: 1,
            rs2: 30,
            offset: 0xfffff000,
        },
        word: 0x81e09063,
    },
    // bne x17, x19, .+2
    Encoding {
        instruction: Instruction::Branch {
            kind: BranchKind::Bne,
            rs1: 17,
            rs2: 19,
            offset: 0x2,
        },
        word: 0x01389163,
    },
    // blt x2, x29, .+2048
    Encoding {
        instruction: Instruction::Branch {
            kind: BranchKind::Blt,
            rs1: 2,
            rs2: 29,
            offset: 0x800,
        },
        word: 0x01d140e3,
    },
    // blt x17, x20, .+1366
    Encoding {
        instruction: Instruction::Branch {
            kind: BranchKind::Blt,
            rs1: 17,
            rs2: 20,
            offset: 0x556,
        },
        word: 0x5548cb63,
    },
    // bge x3, x28, .-2
    Encoding {
        instruction: Instruction::Branch {
            kind: BranchKind::Bge,
            rs1: 3,
            rs2: 28,
            offset: 0xfffffffe,
        },
        word: 0xffc1dfe3,
    },
    // bge x17, x21, .-1368
    Encoding {
        instruction: Instruction::Branch {
            kind: BranchKind::Bge,
            rs1: 17,
            rs2: 21,
            offset: 0xfffffaa8,
        },
        word: 0xab58d4e3,
    },
    // bltu x4, x27, .+1024
    Encoding {
        instruction: Instruction::Branch {
            kind: BranchKind::Bltu,
            rs1: 4,
            rs2: 27,
            offset: 0x400,
        },
        word: 0x41b26063,
    },
    // bltu x17, x22, .+4064
    Encoding {
        instruction: Instruction::Branch {
            kind: BranchKind::Bltu,
            rs1: 17,
            rs2: 22,
            offset: 0xfe0,
        },
        word: 0x7f68e0e3,
    },
    // bgeu x5, x26, .+30
    Encoding {
        instruction: Instruction::Branch {
            kind: BranchKind::Bgeu,
            rs1: 5,
            rs2: 26,
            offset: 0x1e,
        },
        word: 0x01a2ff63,
    },
    // bgeu x17, x23, .-4066
    Encoding {
        instruction: Instruction::Branch {
            kind: BranchKind::Bgeu,
            rs1: 17,
            rs2: 23,
            offset: 0xfffff01e,
        },
        word: 0x8178ff63,
    },
    // lb x31, 2047(x1)
    Encoding {
        instruction: Instruction::Load {
            kind: LoadKind::Lb,
            rd: 31,
            rs1: 1,
            offset: 0x7ff,
        },
        word: 0x7ff08f83,
    },
    // lh x30, -2048(x2)
    Encoding {
        instruction: Instruction::Load {
            kind: LoadKind::Lh,
            rd: 30,
            rs1: 2,
            offset: 0xfffff800,
        },
        word: 0x80011f03,
    },
    // lw x29, -1(x3)
    Encoding {
        instruction: Instruction::Load {
            kind: LoadKind::Lw,
            rd: 29,
            rs1: 3,
            offset: 0xffffffff,
        },
        word: 0xfff1ae83,
    },
    // lbu x28, 0(x4)
    Encoding {
        instruction: Instruction::Load {
            kind: LoadKind::Lbu,
            rd: 28,
            rs1: 4,
            offset: 0x0,
        },
        word: 0x00024e03,
    },
    // lhu x27, 1365(x5)
    Encoding {
        instruction: Instruction::Load {
            kind: LoadKind::Lhu,
            rd: 27,
            rs1: 5,
            offset: 0x555,
        },
        word: 0x5552dd83,
    },
    // sb x31, 2047(x1)
    Encoding {
        instruction: Instruction::Store {
            kind: StoreKind::Sb,
            rs1: 1,
            rs2: 31,
            offset: 0x7ff,
        },
        word: 0x7ff08fa3,
    },
    // sb x0, -32(x31)
    Encoding {
        instruction: Instruction::Store {
            kind: StoreKind::Sb,
            rs1: 31,
            rs2: 0,
            offset: 0xffffffe0,
        },
        word: 0xfe0f8023,
    },
    // sh x30, -2048(x2)
    Encoding {
        instruction: Instruction::Store {
            kind: StoreKind::Sh,
            rs1: 2,
            rs2: 30,
            offset: 0xfffff800,
        },
        word: 0x81e11023,
    },
    // sh x1, 1366(x30)
    Encoding {
        instruction: Instruction::Store {
            kind: StoreKind::Sh,
            rs1: 30,
            rs2: 1,
            offset: 0x556,
        },
        word: 0x541f1b23,
    },
    // sw x29, 31(x3)
    Encoding {
        instruction: Instruction::Store {
            kind: StoreKind::Sw,
            rs1: 3,
            rs2: 29,
            offset: 0x1f,
        },
        word: 0x01d1afa3,
    },
    // sw x2, -1(x29)
    Encoding {
        instruction: Instruction::Store {
            kind: StoreKind::Sw,
            rs1: 29,
            rs2: 2,
            offset: 0xffffffff,
        },
        word: 0xfe2eafa3,
    },
    // addi x31, x0, -2048
    Encoding {
        instruction: Instruction::OpImm {
            operation: Operation::Add,
            rd: 31,
            rs1: 0,
            value: 0xfffff800,
        },
        word: 0x80000f93,
    },
    // slti x30, x1, 2047
    Encoding {
        instruction: Instruction::OpImm {
            operation: Operation::Slt,
            rd: 30,
            rs1: 1,
            value: 0x7ff,
        },
        word: 0x7ff0af13,
    },
    // sltiu x29, x2, -1
    Encoding {
        instruction: Instruction::OpImm {
            operation: Operation::Sltu,
            rd: 29,
            rs1: 2,
            value: 0xffffffff,
        },
        word: 0xfff13e93,
    },
    // xori x28, x3, 1
    Encoding {
        instruction: Instruction::OpImm {
            operation: Operation::Xor,
            rd: 28,
            rs1: 3,
            value: 0x1,
        },
        word: 0x0011ce13,
    },
    // ori x27, x4, 1365
    Encoding {
        instruction: Instruction::OpImm {
            operation: Operation::Or,
            rd: 27,
            rs1: 4,
            value: 0x555,
        },
        word: 0x55526d93,
    },
    // andi x26, x5, -1366
    Encoding {
        instruction: Instruction::OpImm {
            operation: Operation::And,
            rd: 26,
            rs1: 5,
            value: 0xfffffaaa,
        },
        word: 0xaaa2fd13,
    },
    // slli x31, x1, 31
    Encoding {
        instruction: Instruction::OpImm {
            operation: Operation::Sll,
            rd: 31,
            rs1: 1,
            value: 0x1f,
        },
        word: 0x01f09f93,
    },
    // slli x2, x30, 0
    Encoding {
        instruction: Instruction::OpImm {
            operation: Operation::Sll,
            rd: 2,
            rs1: 30,
            value: 0x0,
        },
        word: 0x000f1113,
    },
    // srli x31, x1, 31
    Encoding {
        instruction: Instruction::OpImm {
            operation: Operation::Srl,
            rd: 31,
            rs1: 1,
            value: 0x1f,
        },
        word: 0x01f0df93,
    },
    // srli x3, x30, 1
    Encoding {
        instruction: Instruction::OpImm {
            operation: Operation::Srl,
            rd: 3,
            rs1: 30,
            value: 0x1,
        },
        word: 0x001f5193,
    },
    // srai x31, x1, 31
    Encoding {
        instruction: Instruction::OpImm {
            operation: Operation::Sra,
            rd: 31,
            rs1: 1,
            value: 0x1f,
        },
        word: 0x41f0df93,
    },
    // srai x4, x30, 2
    Encoding {
        instruction: Instruction::OpImm {
            operation: Operation::Sra,
            rd: 4,
            rs1: 30,
            value: 0x2,
        },
        word: 0x402f5213,
    },
    // add x31, x1, x16
    Encoding {
        instruction: Instruction::Op {
            operation: Operation::Add,
            rd: 31,
            rs1: 1,
            rs2: 16,
        },
        word: 0x01008fb3,
    },
    // sub x30, x2, x17
    Encoding {
        instruction: Instruction::Op {
            operation: Operation::Sub,
            rd: 30,
            rs1: 2,
            rs2: 17,
        },
        word: 0x41110f33,
    },
    // sll x29, x3, x18
    Encoding {
        instruction: Instruction::Op {
            operation: Operation::Sll,
            rd: 29,
            rs1: 3,
            rs2: 18,
        },
        word: 0x01219eb3,
    },
    // slt x28, x4, x19
    Encoding {
        instruction: Instruction::Op {
            operation: Operation::Slt,
            rd: 28,
            rs1: 4,
            rs2: 19,
        },
        word: 0x01322e33,
    },
    // sltu x27, x5, x20
    Encoding {
        instruction: Instruction::Op {
            operation: Operation::Sltu,
            rd: 27,
            rs1: 5,
            rs2: 20,
        },
        word: 0x0142bdb3,
    },
    // xor x26, x6, x21
    Encoding {
        instruction: Instruction::Op {
            operation: Operation::Xor,
            rd: 26,
            rs1: 6,
            rs2: 21,
        },
        word: 0x01534d33,
    },
    // srl x25, x7, x22
    Encoding {
        instruction: Instruction::Op {
            operation: Operation::Srl,
            rd: 25,
            rs1: 7,
            rs2: 22,
        },
        word: 0x0163dcb3,
    },
    // sra x24, x8, x23
    Encoding {
        instruction: Instruction::Op {
            operation: Operation::Sra,
            rd: 24,
            rs1: 8,
            rs2: 23,
        },
        word: 0x41745c33,
    },
    // or x23, x9, x24
    Encoding {
        instruction: Instruction::Op {
            operation: Operation::Or,
            rd: 23,
            rs1: 9,
            rs2: 24,
        },
        word: 0x0184ebb3,
    },
    // and x22, x10, x25
    Encoding {
        instruction: Instruction::Op {
            operation: Operation::And,
            rd: 22,
            rs1: 10,
            rs2: 25,
        },
        word: 0x01957b33,
    },
    // fence
    Encoding {
        instruction: Instruction::Fence,
        word: 0x0ff0000f,
    },
    // ecall
    Encoding {
        instruction: Instruction::Ecall,
        word: 0x00000073,
    },
    // ebreak
    Encoding {
        instruction: Instruction::Ebreak,
        word: 0x00100073,
    },
    // mret
    Encoding {
        instruction: Instruction::Mret,
        word: 0x30200073,
    },
];

pub const MARKED: [Marked; 8] = [
    // amoadd.w x31, x2, (x1)
    Marked {
        instruction: Instruction::Amo {
            kind: AmoKind::AmoAdd,
            rd: 31,
            rs1: 1,
            rs2: 2,
        },
        order: Order {
            acquire: false,
            release: false,
        },
        word: 0x0020afaf,
    },
    // amoadd.w.aq x31, x2, (x1)
    Marked {
        instruction: Instruction::Amo {
            kind: AmoKind::AmoAdd,
            rd: 31,
            rs1: 1,
            rs2: 2,
        },
        order: Order {
            acquire: true,
            release: false,
        },
        word: 0x0420afaf,
    },
    // amoadd.w.rl x31, x2, (x1)
    Marked {
        instruction: Instruction::Amo {
            kind: AmoKind::AmoAdd,
            rd: 31,
            rs1: 1,
            rs2: 2,
        },
        order: Order {
            acquire: false,
            release: true,
        },
        word: 0x0220afaf,
    },
    // amoadd.w.aqrl x31, x2, (x1)
    Marked {
        instruction: Instruction::Amo {
            kind: AmoKind::AmoAdd,
            rd: 31,
            rs1: 1,
            rs2: 2,
        },
        order: Order {
            acquire: true,
            release: true,
        },
        word: 0x0620afaf,
    },
    // amoswap.w x3, x29, (x30)
    Marked {
        instruction: Instruction::Amo {
            kind: AmoKind::AmoSwap,
            rd: 3,
            rs1: 30,
            rs2: 29,
        },
        order: Order {
            acquire: false,
            release: false,
        },
        word: 0x09df21af,
    },
    // amoswap.w.aq x3, x29, (x30)
    Marked {
        instruction: Instruction::Amo {
            kind: AmoKind::AmoSwap,
            rd: 3,
            rs1: 30,
            rs2: 29,
        },
        order: Order {
            acquire: true,
            release: false,
        },
        word: 0x0ddf21af,
    },
    // amoswap.w.rl x3, x29, (x30)
    Marked {
        instruction: Instruction::Amo {
            kind: AmoKind::AmoSwap,
            rd: 3,
            rs1: 30,
            rs2: 29,
        },
        order: Order {
            acquire: false,
            release: true,
        },
        word: 0x0bdf21af,
    },
    // amoswap.w.aqrl x3, x29, (x30)
    Marked {
        instruction: Instruction::Amo {
            kind: AmoKind::AmoSwap,
            rd: 3,
            rs1: 30,
            rs2: 29,
        },
        order: Order {
            acquire: true,
            release: true,
        },
        word: 0x0fdf21af,
    },
];
