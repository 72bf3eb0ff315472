// Each row of the tables, and operands that do not fit.
use crate::table::{MARKED, TABLE};
use encode::encoding::encoded;
use encode::misfit::Misfit;
use encode::order::ordered;
use rv32::instruction::*;
use std::test::Fail;

#[test]
fn words_are_those_of_another_assembler(rt: HostRuntime) -> Result<(), Fail> {
    for v in &TABLE {
        assert_eq!(rt; encoded(v.instruction), Ok(v.word));
    }
    for v in &MARKED {
        assert_eq!(rt; ordered(encoded(v.instruction)?, v.order), v.word);
    }
    assert_eq!(rt;
        encoded(Instruction::Illegal),
        Ok(0),
        "the word that is defined to be illegal"
    );
    Ok(())
}

fn add_immediate(rd: usize, rs1: usize, value: u32) -> Instruction {
    Instruction::OpImm {
        operation: Operation::Add,
        rd,
        rs1,
        value,
    }
}

fn shift(operation: Operation, value: u32) -> Instruction {
    Instruction::OpImm {
        operation,
        rd: 1,
        rs1: 2,
        value,
    }
}

fn branch(offset: u32) -> Instruction {
    Instruction::Branch {
        kind: BranchKind::Bne,
        rs1: 1,
        rs2: 2,
        offset,
    }
}

// The first numbers past each end, and odd ones.
#[test]
fn misfits_are_named(rt: HostRuntime) {
    assert_eq!(rt; encoded(add_immediate(32, 40, 5000)), Err(Misfit::Register));
    assert_eq!(rt; encoded(add_immediate(31, 32, 5000)), Err(Misfit::Register));
    for value in [2048, 4095, 0xffff_f7ff] {
        assert_eq!(rt;
            encoded(add_immediate(31, 0, value)),
            Err(Misfit::Immediate)
        );
    }
    assert_eq!(rt; encoded(shift(Operation::Sra, 32)), Err(Misfit::Shift));
    assert_eq!(rt; encoded(shift(Operation::Sub, 1)), Err(Misfit::Operation));
    for value in [1, 0x1234_5800] {
        assert_eq!(rt;
            encoded(Instruction::Lui { rd: 1, value }),
            Err(Misfit::Upper)
        );
    }
    for offset in [4096, 0xffff_effe, 3] {
        assert_eq!(rt; encoded(branch(offset)), Err(Misfit::BranchOffset));
    }
    for offset in [0x10_0000, 0xffef_fffe, 0xffff_ffff] {
        assert_eq!(rt;
            encoded(Instruction::Jal { rd: 1, offset }),
            Err(Misfit::JumpOffset)
        );
    }
}
