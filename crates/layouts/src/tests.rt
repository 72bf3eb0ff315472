// A small source against the words that GNU as and ld give for it, and statements with faults.
use encode::misfit::Misfit;
use encode::order::Order;
use layout::statement::*;
use layout::*;
use rv32::instruction::*;
use std::test::Fail;

const START: usize = 0;

const DONE: usize = 1;

const DATA: usize = 2;

const A0: usize = 10;

const A1: usize = 11;

const A2: usize = 12;

const PLAIN: Order = Order {
    acquire: false,
    release: false,
};

fn number(number: u32) -> Sum {
    Sum {
        plus: None,
        minus: None,
        number,
    }
}

fn symbol(symbol: usize) -> Sum {
    Sum {
        plus: Some(symbol),
        minus: None,
        number: 0,
    }
}

fn code(instruction: Instruction) -> Statement {
    Statement::Code {
        instruction,
        order: PLAIN,
        operand: None,
    }
}

fn to(instruction: Instruction, part: Part, k: usize) -> Statement {
    Statement::Code {
        instruction,
        order: PLAIN,
        operand: Some(Operand {
            part,
            sum: symbol(k),
        }),
    }
}

fn data(width: Width, sum: Sum) -> Statement {
    Statement::Data {
        width,
        operand: Operand {
            part: Part::Whole,
            sum,
        },
    }
}

fn branch(kind: BranchKind) -> Instruction {
    Instruction::Branch {
        kind,
        rs1: A0,
        rs2: A1,
        offset: 0,
    }
}

fn add_immediate(rd: usize, rs1: usize, value: u32) -> Instruction {
    Instruction::OpImm {
        operation: Operation::Add,
        rd,
        rs1,
        value,
    }
}

// start: auipc a0, %pcrel_hi(data); addi a0, a0, %pcrel_lo(start); lui a1, %hi(data); lw a1, %lo(data)(a1); beq a0, a1, done
fn first_part() -> [Statement; 6] {
    [
        Statement::Label { symbol: START },
        to(
            Instruction::Auipc { rd: A0, offset: 0 },
            Part::RelativeHigh,
            DATA,
        ),
        to(add_immediate(A0, A0, 0), Part::RelativeLow, DATA),
        to(Instruction::Lui { rd: A1, value: 0 }, Part::High, DATA),
        to(
            Instruction::Load {
                kind: LoadKind::Lw,
                rd: A1,
                rs1: A1,
                offset: 0,
            },
            Part::Low,
            DATA,
        ),
        to(branch(BranchKind::Beq), Part::Relative, DONE),
    ]
}

// bne a0, a1, start; amoadd.w.aqrl a2, a1, (a0); jal ra, done; .byte 1, -1; .half 0x1234; .balign 8
fn second_part() -> [Statement; 7] {
    [
        to(branch(BranchKind::Bne), Part::Relative, START),
        Statement::Code {
            instruction: Instruction::Amo {
                kind: AmoKind::AmoAdd,
                rd: A2,
                rs1: A0,
                rs2: A1,
            },
            order: Order {
                acquire: true,
                release: true,
            },
            operand: None,
        },
        to(Instruction::Jal { rd: 1, offset: 0 }, Part::Relative, DONE),
        data(Width::Byte, number(1)),
        data(Width::Byte, number(0xffff_ffff)),
        data(Width::Half, number(0x1234)),
        Statement::Align { bits: 3 },
    ]
}

// done: ebreak; .org 0x7fc; j start; data: .word data + 4, data - done
fn third_part() -> [Statement; 7] {
    [
        Statement::Label { symbol: DONE },
        code(Instruction::Ebreak),
        Statement::Origin { address: 0x7fc },
        to(Instruction::Jal { rd: 0, offset: 0 }, Part::Relative, START),
        Statement::Label { symbol: DATA },
        data(
            Width::Word,
            Sum {
                plus: Some(DATA),
                minus: None,
                number: 4,
            },
        ),
        data(
            Width::Word,
            Sum {
                plus: Some(DATA),
                minus: Some(DONE),
                number: 0,
            },
        ),
    ]
}

// Each word of memory that is not 0, by its address.
const WORDS: [(usize, u32); 14] = [
    (0x000, 0x00001517),
    (0x004, 0x80050513),
    (0x008, 0x000015b7),
    (0x00c, 0x8005a583),
    (0x010, 0x00b50c63),
    (0x014, 0xfeb516e3),
    (0x018, 0x06b5262f),
    (0x01c, 0x00c000ef),
    (0x020, 0x1234ff01),
    (0x024, 0x00000013),
    (0x028, 0x00100073),
    (0x7fc, 0x805ff06f),
    (0x800, 0x00000804),
    (0x804, 0x000007d8),
];

fn put(memory: &mut [u8], address: usize, word: u32) {
    if address < 4096 && address + 4 <= memory.len() {
        memory[address..address + 4].copy_from_slice(&word.to_le_bytes());
    }
}

#[test]
fn a_source_is_laid_out_as_gnu_as_does(rt: HostRuntime) -> Result<(), Fail> {
    let mut source = Vec::new(rt.alloc());
    source.extend_from_slice(&first_part())?;
    source.extend_from_slice(&second_part())?;
    source.extend_from_slice(&third_part())?;
    assert_eq!(rt; extent(source.as_slice(), 65536), 0x808);
    let memory = lay_out(rt.alloc(), source.as_slice(), 3, 65)?;
    let mut expected = vec![in rt.alloc(); 0u8; 65 * 32]?;
    for (address, word) in WORDS {
        put(expected.as_mut_slice(), address, word);
    }
    assert_eq!(rt; memory.as_slice(), expected.as_slice());
    Ok(())
}

#[test]
fn all_faults_are_told(rt: HostRuntime) -> Result<(), Fail> {
    let statements = [
        Statement::Origin { address: 8 },
        Statement::Origin { address: 4 },
        data(Width::Byte, number(256)),
        code(add_immediate(A0, 32, 0)),
        data(Width::Byte, number(255)),
        code(Instruction::Ebreak),
        Statement::Align { bits: 6 },
    ];
    let Err(LayoutError::Faults(told)) = lay_out(rt.alloc(), &statements, 0, 1) else {
        return Err(Fail::new("laid out"));
    };
    let faults = [
        Located {
            index: 1,
            fault: Fault::Backwards,
        },
        Located {
            index: 2,
            fault: Fault::TooWide,
        },
        Located {
            index: 3,
            fault: Fault::Misaligned,
        },
        Located {
            index: 5,
            fault: Fault::Misaligned,
        },
        Located {
            index: 6,
            fault: Fault::Outside,
        },
    ];
    assert_eq!(rt; told.as_slice(), faults.as_slice());
    assert!(rt; matches!(lay_out(rt.alloc(), &[], 0, 0), Err(LayoutError::NoSuchSize)));
    Ok(())
}

#[test]
fn an_instruction_without_a_word_is_told(rt: HostRuntime) -> Result<(), Fail> {
    let statements = [
        code(add_immediate(A0, 32, 0)),
        code(add_immediate(A0, A0, 2048)),
    ];
    let Err(LayoutError::Faults(told)) = lay_out(rt.alloc(), &statements, 0, 1) else {
        return Err(Fail::new("laid out"));
    };
    let faults = [
        Located {
            index: 0,
            fault: Fault::NoWord(Misfit::Register),
        },
        Located {
            index: 1,
            fault: Fault::NoWord(Misfit::Immediate),
        },
    ];
    assert_eq!(rt; told.as_slice(), faults.as_slice());
    Ok(())
}
