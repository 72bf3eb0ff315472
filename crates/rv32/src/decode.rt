// Which instruction a word is.
ghost use Rattle.std.specs.Prelude.{◌≡◌};
ghost use Rattle.rv32.specs.Decode.{amos, branches, decode, decode_rule, fences, funct3, funct7, jalrs, loads, op_imms, ops, rd, rs1, rs2, select, stores, systems};
ghost use Rattle.rv32.specs.Decode.{immediate_b, immediate_i, immediate_j, immediate_s, immediate_u};

use crate::instruction::*;
use words::word::{bits, sign_extended};

fn register_d(word: u32) -> usize
    ensures { result ≡ rd word }
{
    bits(word, 7, 5) as usize
}

fn register_1(word: u32) -> usize
    ensures { result ≡ rs1 word }
{
    bits(word, 15, 5) as usize
}

fn register_2(word: u32) -> usize
    ensures { result ≡ rs2 word }
{
    bits(word, 20, 5) as usize
}

fn function_3(word: u32) -> u32
    ensures { result ≡ funct3 word }
{
    bits(word, 12, 3)
}

fn function_7(word: u32) -> u32
    ensures { result ≡ funct7 word }
{
    bits(word, 25, 7)
}

fn offset_i(word: u32) -> u32
    ensures { result ≡ immediate_i word }
{
    sign_extended(bits(word, 20, 12), 12)
}

fn offset_s(word: u32) -> u32
    ensures { result ≡ immediate_s word }
{
    sign_extended((bits(word, 25, 7) << 5) + bits(word, 7, 5), 12)
}

fn offset_b(word: u32) -> u32
    ensures { result ≡ immediate_b word }
{
    let high = (bits(word, 31, 1) << 12) + (bits(word, 7, 1) << 11);
    let low = (bits(word, 25, 6) << 5) + (bits(word, 8, 4) << 1);
    sign_extended(high + low, 13)
}

fn value_u(word: u32) -> u32
    ensures { result ≡ immediate_u word }
{
    bits(word, 12, 20) << 12
}

fn offset_j(word: u32) -> u32
    ensures { result ≡ immediate_j word }
{
    let high = (bits(word, 31, 1) << 20) + (bits(word, 12, 8) << 12);
    let low = (bits(word, 20, 1) << 11) + (bits(word, 21, 10) << 1);
    sign_extended(high + low, 21)
}

fn decode_jalr(word: u32) -> Instruction
    ensures { result ≡ select (funct3 word) (jalrs word) }
{
    match function_3(word) {
        0 => Instruction::Jalr {
            rd: register_d(word),
            rs1: register_1(word),
            offset: offset_i(word),
        },
        _ => Instruction::Illegal,
    }
}

fn decode_branch(word: u32) -> Instruction
    ensures { result ≡ select (funct3 word) (branches word) }
{
    let kind = match function_3(word) {
        0 => BranchKind::Beq,
        1 => BranchKind::Bne,
        4 => BranchKind::Blt,
        5 => BranchKind::Bge,
        6 => BranchKind::Bltu,
        7 => BranchKind::Bgeu,
        _ => return Instruction::Illegal,
    };
    Instruction::Branch {
        kind,
        rs1: register_1(word),
        rs2: register_2(word),
        offset: offset_b(word),
    }
}

fn decode_load(word: u32) -> Instruction
    ensures { result ≡ select (funct3 word) (loads word) }
{
    let kind = match function_3(word) {
        0 => LoadKind::Lb,
        1 => LoadKind::Lh,
        2 => LoadKind::Lw,
        4 => LoadKind::Lbu,
        5 => LoadKind::Lhu,
        _ => return Instruction::Illegal,
    };
    Instruction::Load {
        kind,
        rd: register_d(word),
        rs1: register_1(word),
        offset: offset_i(word),
    }
}

fn decode_store(word: u32) -> Instruction
    ensures { result ≡ select (funct3 word) (stores word) }
{
    let kind = match function_3(word) {
        0 => StoreKind::Sb,
        1 => StoreKind::Sh,
        2 => StoreKind::Sw,
        _ => return Instruction::Illegal,
    };
    Instruction::Store {
        kind,
        rs1: register_1(word),
        rs2: register_2(word),
        offset: offset_s(word),
    }
}

fn decode_op_imm(word: u32) -> Instruction
    ensures { result ≡ select (funct3 word) (op_imms word) }
{
    let shift = bits(word, 20, 5);
    let immediate = offset_i(word);
    let (operation, value) = match (function_3(word), function_7(word)) {
        (0, _) => (Operation::Add, immediate),
        (2, _) => (Operation::Slt, immediate),
        (3, _) => (Operation::Sltu, immediate),
        (4, _) => (Operation::Xor, immediate),
        (6, _) => (Operation::Or, immediate),
        (7, _) => (Operation::And, immediate),
        (1, 0) => (Operation::Sll, shift),
        (5, 0) => (Operation::Srl, shift),
        (5, 32) => (Operation::Sra, shift),
        _ => return Instruction::Illegal,
    };
    Instruction::OpImm {
        operation,
        rd: register_d(word),
        rs1: register_1(word),
        value,
    }
}

fn decode_op(word: u32) -> Instruction
    ensures { result ≡ select (funct7 word) (ops word) }
{
    let operation = match (function_7(word), function_3(word)) {
        (0, 0) => Operation::Add,
        (0, 1) => Operation::Sll,
        (0, 2) => Operation::Slt,
        (0, 3) => Operation::Sltu,
        (0, 4) => Operation::Xor,
        (0, 5) => Operation::Srl,
        (0, 6) => Operation::Or,
        (0, 7) => Operation::And,
        (32, 0) => Operation::Sub,
        (32, 5) => Operation::Sra,
        _ => return Instruction::Illegal,
    };
    Instruction::Op {
        operation,
        rd: register_d(word),
        rs1: register_1(word),
        rs2: register_2(word),
    }
}

fn decode_amo(word: u32) -> Instruction
    ensures { result ≡ select (funct3 word) (amos word) }
{
    let kind = match (function_3(word), bits(word, 27, 5)) {
        (2, 0) => AmoKind::AmoAdd,
        (2, 1) => AmoKind::AmoSwap,
        _ => return Instruction::Illegal,
    };
    Instruction::Amo {
        kind,
        rd: register_d(word),
        rs1: register_1(word),
        rs2: register_2(word),
    }
}

fn decode_fence(word: u32) -> Instruction
    ensures { result ≡ select (funct3 word) fences }
{
    match function_3(word) {
        0 => Instruction::Fence,
        _ => Instruction::Illegal,
    }
}

fn decode_system(word: u32) -> Instruction
    ensures { result ≡ select word systems }
{
    match word {
        0x0000_0073 => Instruction::Ecall,
        0x0010_0073 => Instruction::Ebreak,
        0x3020_0073 => Instruction::Mret,
        _ => Instruction::Illegal,
    }
}

fn by_opcode(word: u32) -> Instruction
    ensures { result ≡ decode_rule word }
{
    match bits(word, 0, 7) {
        0x37 => Instruction::Lui {
            rd: register_d(word),
            value: value_u(word),
        },
        0x17 => Instruction::Auipc {
            rd: register_d(word),
            offset: value_u(word),
        },
        0x6f => Instruction::Jal {
            rd: register_d(word),
            offset: offset_j(word),
        },
        0x67 => decode_jalr(word),
        0x63 => decode_branch(word),
        0x03 => decode_load(word),
        0x23 => decode_store(word),
        0x13 => decode_op_imm(word),
        0x33 => decode_op(word),
        0x0f => decode_fence(word),
        0x73 => decode_system(word),
        0x2f => decode_amo(word),
        _ => Instruction::Illegal,
    }
}

// The instruction that a word is.
pub fn decoded(word: u32) -> Instruction
    ensures { result ≡ decode word }
{
    by_opcode(word)
}
