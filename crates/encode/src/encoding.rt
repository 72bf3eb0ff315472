// The word of an instruction, or what keeps it from having one.
ghost use Rattle.rv32.specs.declared.instruction.Instruction.TheVariants.{OpImm};
ghost use Rattle.encode.specs.Encode.{encode, encode_rule, Gives, misfit, misfit_rule};
ghost use Rattle.encode.specs.Laws.{Exact};

use crate::field::*;
use crate::format::*;
use crate::misfit::Misfit;
use rv32::instruction::*;

fn op_imm(operation: Operation, rd: usize, rs1: usize, value: u32) -> Result<u32, Misfit>
    ensures { Gives (misfit_rule (OpImm operation rd rs1 value)) (encode_rule (OpImm operation rd rs1 value)) result }
{
    match operation {
        Operation::Sub => Err(Misfit::Operation),
        Operation::Sll | Operation::Srl | Operation::Sra => r_type(
            operation.into(),
            Second::Amount(value),
            rs1,
            operation.into(),
            rd,
            OP_IMM,
        ),
        Operation::Add
        | Operation::Slt
        | Operation::Sltu
        | Operation::Xor
        | Operation::Or
        | Operation::And => i_type(value, rs1, operation.into(), rd, OP_IMM),
    }
}

fn by_format(instruction: Instruction) -> Result<u32, Misfit>
    ensures { Gives (misfit_rule instruction) (encode_rule instruction) result }
{
    match instruction {
        Instruction::Lui { rd, value } => u_type(value, rd, LUI),
        Instruction::Auipc { rd, offset } => u_type(offset, rd, AUIPC),
        Instruction::Jal { rd, offset } => j_type(offset, rd, JAL),
        Instruction::Jalr { rd, rs1, offset } => i_type(offset, rs1, Field { number: 0 }, rd, JALR),
        Instruction::Branch {
            kind,
            rs1,
            rs2,
            offset,
        } => b_type(offset, rs2, rs1, kind.into(), BRANCH),
        Instruction::Load {
            kind,
            rd,
            rs1,
            offset,
        } => i_type(offset, rs1, kind.into(), rd, LOAD),
        Instruction::Store {
            kind,
            rs1,
            rs2,
            offset,
        } => s_type(offset, rs2, rs1, kind.into(), STORE),
        Instruction::OpImm {
            operation,
            rd,
            rs1,
            value,
        } => op_imm(operation, rd, rs1, value),
        Instruction::Op {
            operation,
            rd,
            rs1,
            rs2,
        } => r_type(
            operation.into(),
            Second::Register(rs2),
            rs1,
            operation.into(),
            rd,
            OP,
        ),
        Instruction::Amo { kind, rd, rs1, rs2 } => r_type(
            kind.into(),
            Second::Register(rs2),
            rs1,
            Field { number: 2 },
            rd,
            AMO,
        ),
        Instruction::Fence => Ok(0x0ff0_000f),
        Instruction::Ecall => Ok(0x0000_0073),
        Instruction::Ebreak => Ok(0x0010_0073),
        Instruction::Mret => Ok(0x3020_0073),
        Instruction::Illegal => Ok(0),
    }
}

// The word of an instruction; a refusal says which operand does not fit.
pub fn encoded(instruction: Instruction) -> Result<u32, Misfit>
    ensures value { Gives (misfit instruction) (encode instruction) result }
    ensures exact { Exact instruction result }
{
    by_format(instruction)
}
