// Instructions with what they do, made by tools/vectors.py: the words by GNU as, the values by qemu-riscv32 or, for jumps, by hand.
use crate::Vector;

// The data word before each instruction, and where it stands.
pub const DATA: u32 = 0x80ff7f01;

pub const PC: u32 = 0x100;

pub const TABLE: [Vector; 102] = [
    // add x7, x5, x6
    Vector {
        word: 0x006283b3,
        x5: 0x12345678,
        x6: 0x9abcdef0,
        x7: 0xacf13568,
        data: 0x80ff7f01,
        pc: 0x104,
    },
    // add x7, x5, x6
    Vector {
        word: 0x006283b3,
        x5: 0x80000000,
        x6: 0x21,
        x7: 0x80000021,
        data: 0x80ff7f01,
        pc: 0x104,
    },
    // add x7, x5, x6
    Vector {
        word: 0x006283b3,
        x5: 0xffffffff,
        x6: 0x1,
        x7: 0x0,
        data: 0x80ff7f01,
        pc: 0x104,
    },
    // sub x7, x5, x6
    Vector {
        word: 0x406283b3,
        x5: 0x12345678,
        x6: 0x9abcdef0,
        x7: 0x77777788,
        data: 0x80ff7f01,
        pc: 0x104,
    },
    // sub x7, x5, x6
    Vector {
        word: 0x406283b3,
        x5: 0x80000000,
        x6: 0x21,
        x7: 0x7fffffdf,
        data: 0x80ff7f01,
        pc: 0x104,
    },
    // sub x7, x5, x6
    Vector {
        word: 0x406283b3,
        x5: 0xffffffff,
        x6: 0x1,
        x7: 0xfffffffe,
        data: 0x80ff7f01,
        pc: 0x104,
    },
    // sll x7, x5, x6
    Vector {
        word: 0x006293b3,
        x5: 0x12345678,
        x6: 0x9abcdef0,
        x7: 0x56780000,
        data: 0x80ff7f01,
        pc: 0x104,
    },
    // sll x7, x5, x6
    Vector {
        word: 0x006293b3,
        x5: 0x80000000,
        x6: 0x21,
        x7: 0x0,
        data: 0x80ff7f01,
        pc: 0x104,
    },
    // sll x7, x5, x6
    Vector {
        word: 0x006293b3,
        x5: 0xffffffff,
        x6: 0x1,
        x7: 0xfffffffe,
        data: 0x80ff7f01,
        pc: 0x104,
    },
    // slt x7, x5, x6
    Vector {
        word: 0x0062a3b3,
        x5: 0x12345678,
        x6: 0x9abcdef0,
        x7: 0x0,
        data: 0x80ff7f01,
        pc: 0x104,
    },
    // slt x7, x5, x6
    Vector {
        word: 0x0062a3b3,
        x5: 0x80000000,
        x6: 0x21,
        x7: 0x1,
        data: 0x80ff7f01,
        pc: 0x104,
    },
    // slt x7, x5, x6
    Vector {
        word: 0x0062a3b3,
        x5: 0xffffffff,
        x6: 0x1,
        x7: 0x1,
        data: 0x80ff7f01,
        pc: 0x104,
    },
    // sltu x7, x5, x6
    Vector {
        word: 0x0062b3b3,
        x5: 0x12345678,
        x6: 0x9abcdef0,
        x7: 0x1,
        data: 0x80ff7f01,
        pc: 0x104,
    },
    // sltu x7, x5, x6
    Vector {
        word: 0x0062b3b3,
        x5: 0x80000000,
        x6: 0x21,
        x7: 0x0,
        data: 0x80ff7f01,
        pc: 0x104,
    },
    // sltu x7, x5, x6
    Vector {
        word: 0x0062b3b3,
        x5: 0xffffffff,
        x6: 0x1,
        x7: 0x0,
        data: 0x80ff7f01,
        pc: 0x104,
    },
    // xor x7, x5, x6
    Vector {
        word: 0x0062c3b3,
        x5: 0x12345678,
        x6: 0x9abcdef0,
        x7: 0x88888888,
        data: 0x80ff7f01,
        pc: 0x104,
    },
    // xor x7, x5, x6
    Vector {
        word: 0x0062c3b3,
        x5: 0x80000000,
        x6: 0x21,
        x7: 0x80000021,
        data: 0x80ff7f01,
        pc: 0x104,
    },
    // xor x7, x5, x6
    Vector {
        word: 0x0062c3b3,
        x5: 0xffffffff,
        x6: 0x1,
        x7: 0xfffffffe,
        data: 0x80ff7f01,
        pc: 0x104,
    },
    // srl x7, x5, x6
    Vector {
        word: 0x0062d3b3,
        x5: 0x12345678,
        x6: 0x9abcdef0,
        x7: 0x1234,
        data: 0x80ff7f01,
        pc: 0x104,
    },
    // srl x7, x5, x6
    Vector {
        word: 0x0062d3b3,
        x5: 0x80000000,
        x6: 0x21,
        x7: 0x40000000,
        data: 0x80ff7f01,
        pc: 0x104,
    },
    // srl x7, x5, x6
    Vector {
        word: 0x0062d3b3,
        x5: 0xffffffff,
        x6: 0x1,
        x7: 0x7fffffff,
        data: 0x80ff7f01,
        pc: 0x104,
    },
    // sra x7, x5, x6
    Vector {
        word: 0x4062d3b3,
        x5: 0x12345678,
        x6: 0x9abcdef0,
        x7: 0x1234,
        data: 0x80ff7f01,
        pc: 0x104,
    },
    // sra x7, x5, x6
    Vector {
        word: 0x4062d3b3,
        x5: 0x80000000,
        x6: 0x21,
        x7: 0xc0000000,
        data: 0x80ff7f01,
        pc: 0x104,
    },
    // sra x7, x5, x6
    Vector {
        word: 0x4062d3b3,
        x5: 0xffffffff,
        x6: 0x1,
        x7: 0xffffffff,
        data: 0x80ff7f01,
        pc: 0x104,
    },
    // or x7, x5, x6
    Vector {
        word: 0x0062e3b3,
        x5: 0x12345678,
        x6: 0x9abcdef0,
        x7: 0x9abcdef8,
        data: 0x80ff7f01,
        pc: 0x104,
    },
    // or x7, x5, x6
    Vector {
        word: 0x0062e3b3,
        x5: 0x80000000,
        x6: 0x21,
        x7: 0x80000021,
        data: 0x80ff7f01,
        pc: 0x104,
    },
    // or x7, x5, x6
    Vector {
        word: 0x0062e3b3,
        x5: 0xffffffff,
        x6: 0x1,
        x7: 0xffffffff,
        data: 0x80ff7f01,
        pc: 0x104,
    },
    // and x7, x5, x6
    Vector {
        word: 0x0062f3b3,
        x5: 0x12345678,
        x6: 0x9abcdef0,
        x7: 0x12345670,
        data: 0x80ff7f01,
        pc: 0x104,
    },
    // and x7, x5, x6
    Vector {
        word: 0x0062f3b3,
        x5: 0x80000000,
        x6: 0x21,
        x7: 0x0,
        data: 0x80ff7f01,
        pc: 0x104,
    },
    // and x7, x5, x6
    Vector {
        word: 0x0062f3b3,
        x5: 0xffffffff,
        x6: 0x1,
        x7: 0x1,
        data: 0x80ff7f01,
        pc: 0x104,
    },
    // addi x7, x5, -2048
    Vector {
        word: 0x80028393,
        x5: 0x9abcdef0,
        x6: 0x0,
        x7: 0x9abcd6f0,
        data: 0x80ff7f01,
        pc: 0x104,
    },
    // addi x7, x5, -2048
    Vector {
        word: 0x80028393,
        x5: 0x7fffffff,
        x6: 0x0,
        x7: 0x7ffff7ff,
        data: 0x80ff7f01,
        pc: 0x104,
    },
    // addi x7, x5, 2047
    Vector {
        word: 0x7ff28393,
        x5: 0x9abcdef0,
        x6: 0x0,
        x7: 0x9abce6ef,
        data: 0x80ff7f01,
        pc: 0x104,
    },
    // addi x7, x5, 2047
    Vector {
        word: 0x7ff28393,
        x5: 0x7fffffff,
        x6: 0x0,
        x7: 0x800007fe,
        data: 0x80ff7f01,
        pc: 0x104,
    },
    // slti x7, x5, -1
    Vector {
        word: 0xfff2a393,
        x5: 0x9abcdef0,
        x6: 0x0,
        x7: 0x1,
        data: 0x80ff7f01,
        pc: 0x104,
    },
    // slti x7, x5, -1
    Vector {
        word: 0xfff2a393,
        x5: 0x7fffffff,
        x6: 0x0,
        x7: 0x0,
        data: 0x80ff7f01,
        pc: 0x104,
    },
    // sltiu x7, x5, -1
    Vector {
        word: 0xfff2b393,
        x5: 0x9abcdef0,
        x6: 0x0,
        x7: 0x1,
        data: 0x80ff7f01,
        pc: 0x104,
    },
    // sltiu x7, x5, -1
    Vector {
        word: 0xfff2b393,
        x5: 0x7fffffff,
        x6: 0x0,
        x7: 0x1,
        data: 0x80ff7f01,
        pc: 0x104,
    },
    // xori x7, x5, -1
    Vector {
        word: 0xfff2c393,
        x5: 0x9abcdef0,
        x6: 0x0,
        x7: 0x6543210f,
        data: 0x80ff7f01,
        pc: 0x104,
    },
    // xori x7, x5, -1
    Vector {
        word: 0xfff2c393,
        x5: 0x7fffffff,
        x6: 0x0,
        x7: 0x80000000,
        data: 0x80ff7f01,
        pc: 0x104,
    },
    // ori x7, x5, 1365
    Vector {
        word: 0x5552e393,
        x5: 0x9abcdef0,
        x6: 0x0,
        x7: 0x9abcdff5,
        data: 0x80ff7f01,
        pc: 0x104,
    },
    // ori x7, x5, 1365
    Vector {
        word: 0x5552e393,
        x5: 0x7fffffff,
        x6: 0x0,
        x7: 0x7fffffff,
        data: 0x80ff7f01,
        pc: 0x104,
    },
    // andi x7, x5, -256
    Vector {
        word: 0xf002f393,
        x5: 0x9abcdef0,
        x6: 0x0,
        x7: 0x9abcde00,
        data: 0x80ff7f01,
        pc: 0x104,
    },
    // andi x7, x5, -256
    Vector {
        word: 0xf002f393,
        x5: 0x7fffffff,
        x6: 0x0,
        x7: 0x7fffff00,
        data: 0x80ff7f01,
        pc: 0x104,
    },
    // slli x7, x5, 31
    Vector {
        word: 0x01f29393,
        x5: 0x9abcdef0,
        x6: 0x0,
        x7: 0x0,
        data: 0x80ff7f01,
        pc: 0x104,
    },
    // srli x7, x5, 4
    Vector {
        word: 0x0042d393,
        x5: 0x9abcdef0,
        x6: 0x0,
        x7: 0x9abcdef,
        data: 0x80ff7f01,
        pc: 0x104,
    },
    // srai x7, x5, 4
    Vector {
        word: 0x4042d393,
        x5: 0x9abcdef0,
        x6: 0x0,
        x7: 0xf9abcdef,
        data: 0x80ff7f01,
        pc: 0x104,
    },
    // srai x7, x5, 31
    Vector {
        word: 0x41f2d393,
        x5: 0x9abcdef0,
        x6: 0x0,
        x7: 0xffffffff,
        data: 0x80ff7f01,
        pc: 0x104,
    },
    // add x0, x5, x6
    Vector {
        word: 0x00628033,
        x5: 0x12345678,
        x6: 0x9abcdef0,
        x7: 0x0,
        data: 0x80ff7f01,
        pc: 0x104,
    },
    // fence rw, rw
    Vector {
        word: 0x0330000f,
        x5: 0x12345678,
        x6: 0x9abcdef0,
        x7: 0x0,
        data: 0x80ff7f01,
        pc: 0x104,
    },
    // lb x7, 0(x5)
    Vector {
        word: 0x00028383,
        x5: 0x40,
        x6: 0x0,
        x7: 0x1,
        data: 0x80ff7f01,
        pc: 0x104,
    },
    // lb x7, 1(x5)
    Vector {
        word: 0x00128383,
        x5: 0x40,
        x6: 0x0,
        x7: 0x7f,
        data: 0x80ff7f01,
        pc: 0x104,
    },
    // lb x7, 2(x5)
    Vector {
        word: 0x00228383,
        x5: 0x40,
        x6: 0x0,
        x7: 0xffffffff,
        data: 0x80ff7f01,
        pc: 0x104,
    },
    // lb x7, 3(x5)
    Vector {
        word: 0x00328383,
        x5: 0x40,
        x6: 0x0,
        x7: 0xffffff80,
        data: 0x80ff7f01,
        pc: 0x104,
    },
    // lbu x7, 0(x5)
    Vector {
        word: 0x0002c383,
        x5: 0x40,
        x6: 0x0,
        x7: 0x1,
        data: 0x80ff7f01,
        pc: 0x104,
    },
    // lbu x7, 1(x5)
    Vector {
        word: 0x0012c383,
        x5: 0x40,
        x6: 0x0,
        x7: 0x7f,
        data: 0x80ff7f01,
        pc: 0x104,
    },
    // lbu x7, 2(x5)
    Vector {
        word: 0x0022c383,
        x5: 0x40,
        x6: 0x0,
        x7: 0xff,
        data: 0x80ff7f01,
        pc: 0x104,
    },
    // lbu x7, 3(x5)
    Vector {
        word: 0x0032c383,
        x5: 0x40,
        x6: 0x0,
        x7: 0x80,
        data: 0x80ff7f01,
        pc: 0x104,
    },
    // lh x7, 0(x5)
    Vector {
        word: 0x00029383,
        x5: 0x40,
        x6: 0x0,
        x7: 0x7f01,
        data: 0x80ff7f01,
        pc: 0x104,
    },
    // lh x7, 2(x5)
    Vector {
        word: 0x00229383,
        x5: 0x40,
        x6: 0x0,
        x7: 0xffff80ff,
        data: 0x80ff7f01,
        pc: 0x104,
    },
    // lhu x7, 0(x5)
    Vector {
        word: 0x0002d383,
        x5: 0x40,
        x6: 0x0,
        x7: 0x7f01,
        data: 0x80ff7f01,
        pc: 0x104,
    },
    // lhu x7, 2(x5)
    Vector {
        word: 0x0022d383,
        x5: 0x40,
        x6: 0x0,
        x7: 0x80ff,
        data: 0x80ff7f01,
        pc: 0x104,
    },
    // lw x7, 0(x5)
    Vector {
        word: 0x0002a383,
        x5: 0x40,
        x6: 0x0,
        x7: 0x80ff7f01,
        data: 0x80ff7f01,
        pc: 0x104,
    },
    // sb x6, 0(x5)
    Vector {
        word: 0x00628023,
        x5: 0x40,
        x6: 0x9abcdef0,
        x7: 0x0,
        data: 0x80ff7ff0,
        pc: 0x104,
    },
    // sb x6, 1(x5)
    Vector {
        word: 0x006280a3,
        x5: 0x40,
        x6: 0x9abcdef0,
        x7: 0x0,
        data: 0x80fff001,
        pc: 0x104,
    },
    // sb x6, 2(x5)
    Vector {
        word: 0x00628123,
        x5: 0x40,
        x6: 0x9abcdef0,
        x7: 0x0,
        data: 0x80f07f01,
        pc: 0x104,
    },
    // sb x6, 3(x5)
    Vector {
        word: 0x006281a3,
        x5: 0x40,
        x6: 0x9abcdef0,
        x7: 0x0,
        data: 0xf0ff7f01,
        pc: 0x104,
    },
    // sh x6, 0(x5)
    Vector {
        word: 0x00629023,
        x5: 0x40,
        x6: 0x9abcdef0,
        x7: 0x0,
        data: 0x80ffdef0,
        pc: 0x104,
    },
    // sh x6, 2(x5)
    Vector {
        word: 0x00629123,
        x5: 0x40,
        x6: 0x9abcdef0,
        x7: 0x0,
        data: 0xdef07f01,
        pc: 0x104,
    },
    // sw x6, 0(x5)
    Vector {
        word: 0x0062a023,
        x5: 0x40,
        x6: 0x9abcdef0,
        x7: 0x0,
        data: 0x9abcdef0,
        pc: 0x104,
    },
    // amoadd.w x7, x6, (x5)
    Vector {
        word: 0x0062a3af,
        x5: 0x40,
        x6: 0x9abcdef0,
        x7: 0x80ff7f01,
        data: 0x1bbc5df1,
        pc: 0x104,
    },
    // amoswap.w x7, x6, (x5)
    Vector {
        word: 0x0862a3af,
        x5: 0x40,
        x6: 0x9abcdef0,
        x7: 0x80ff7f01,
        data: 0x9abcdef0,
        pc: 0x104,
    },
    // amoadd.w.aqrl x7, x6, (x5)
    Vector {
        word: 0x0662a3af,
        x5: 0x40,
        x6: 0x9abcdef0,
        x7: 0x80ff7f01,
        data: 0x1bbc5df1,
        pc: 0x104,
    },
    // amoswap.w.aq x7, x6, (x5)
    Vector {
        word: 0x0c62a3af,
        x5: 0x40,
        x6: 0x9abcdef0,
        x7: 0x80ff7f01,
        data: 0x9abcdef0,
        pc: 0x104,
    },
    // beq x5, x6, .+16
    Vector {
        word: 0x00628863,
        x5: 0x12345678,
        x6: 0x9abcdef0,
        x7: 0x0,
        data: 0x80ff7f01,
        pc: 0x104,
    },
    // beq x5, x6, .+16
    Vector {
        word: 0x00628863,
        x5: 0x9abcdef0,
        x6: 0x12345678,
        x7: 0x0,
        data: 0x80ff7f01,
        pc: 0x104,
    },
    // beq x5, x6, .+16
    Vector {
        word: 0x00628863,
        x5: 0x12345678,
        x6: 0x12345678,
        x7: 0x0,
        data: 0x80ff7f01,
        pc: 0x110,
    },
    // bne x5, x6, .+16
    Vector {
        word: 0x00629863,
        x5: 0x12345678,
        x6: 0x9abcdef0,
        x7: 0x0,
        data: 0x80ff7f01,
        pc: 0x110,
    },
    // bne x5, x6, .+16
    Vector {
        word: 0x00629863,
        x5: 0x9abcdef0,
        x6: 0x12345678,
        x7: 0x0,
        data: 0x80ff7f01,
        pc: 0x110,
    },
    // bne x5, x6, .+16
    Vector {
        word: 0x00629863,
        x5: 0x12345678,
        x6: 0x12345678,
        x7: 0x0,
        data: 0x80ff7f01,
        pc: 0x104,
    },
    // blt x5, x6, .+16
    Vector {
        word: 0x0062c863,
        x5: 0x12345678,
        x6: 0x9abcdef0,
        x7: 0x0,
        data: 0x80ff7f01,
        pc: 0x104,
    },
    // blt x5, x6, .+16
    Vector {
        word: 0x0062c863,
        x5: 0x9abcdef0,
        x6: 0x12345678,
        x7: 0x0,
        data: 0x80ff7f01,
        pc: 0x110,
    },
    // blt x5, x6, .+16
    Vector {
        word: 0x0062c863,
        x5: 0x12345678,
        x6: 0x12345678,
        x7: 0x0,
        data: 0x80ff7f01,
        pc: 0x104,
    },
    // bge x5, x6, .+16
    Vector {
        word: 0x0062d863,
        x5: 0x12345678,
        x6: 0x9abcdef0,
        x7: 0x0,
        data: 0x80ff7f01,
        pc: 0x110,
    },
    // bge x5, x6, .+16
    Vector {
        word: 0x0062d863,
        x5: 0x9abcdef0,
        x6: 0x12345678,
        x7: 0x0,
        data: 0x80ff7f01,
        pc: 0x104,
    },
    // bge x5, x6, .+16
    Vector {
        word: 0x0062d863,
        x5: 0x12345678,
        x6: 0x12345678,
        x7: 0x0,
        data: 0x80ff7f01,
        pc: 0x110,
    },
    // bltu x5, x6, .+16
    Vector {
        word: 0x0062e863,
        x5: 0x12345678,
        x6: 0x9abcdef0,
        x7: 0x0,
        data: 0x80ff7f01,
        pc: 0x110,
    },
    // bltu x5, x6, .+16
    Vector {
        word: 0x0062e863,
        x5: 0x9abcdef0,
        x6: 0x12345678,
        x7: 0x0,
        data: 0x80ff7f01,
        pc: 0x104,
    },
    // bltu x5, x6, .+16
    Vector {
        word: 0x0062e863,
        x5: 0x12345678,
        x6: 0x12345678,
        x7: 0x0,
        data: 0x80ff7f01,
        pc: 0x104,
    },
    // bgeu x5, x6, .+16
    Vector {
        word: 0x0062f863,
        x5: 0x12345678,
        x6: 0x9abcdef0,
        x7: 0x0,
        data: 0x80ff7f01,
        pc: 0x104,
    },
    // bgeu x5, x6, .+16
    Vector {
        word: 0x0062f863,
        x5: 0x9abcdef0,
        x6: 0x12345678,
        x7: 0x0,
        data: 0x80ff7f01,
        pc: 0x110,
    },
    // bgeu x5, x6, .+16
    Vector {
        word: 0x0062f863,
        x5: 0x12345678,
        x6: 0x12345678,
        x7: 0x0,
        data: 0x80ff7f01,
        pc: 0x110,
    },
    // lui x7, 0xfffff
    Vector {
        word: 0xfffff3b7,
        x5: 0x0,
        x6: 0x0,
        x7: 0xfffff000,
        data: 0x80ff7f01,
        pc: 0x104,
    },
    // lui x7, 0x12345
    Vector {
        word: 0x123453b7,
        x5: 0x0,
        x6: 0x0,
        x7: 0x12345000,
        data: 0x80ff7f01,
        pc: 0x104,
    },
    // auipc x7, 0x12345
    Vector {
        word: 0x12345397,
        x5: 0x0,
        x6: 0x0,
        x7: 0x12345100,
        data: 0x80ff7f01,
        pc: 0x104,
    },
    // auipc x7, 0xfffff
    Vector {
        word: 0xfffff397,
        x5: 0x0,
        x6: 0x0,
        x7: 0xfffff100,
        data: 0x80ff7f01,
        pc: 0x104,
    },
    // jal x7, .+2048
    Vector {
        word: 0x001003ef,
        x5: 0x0,
        x6: 0x0,
        x7: 0x104,
        data: 0x80ff7f01,
        pc: 0x900,
    },
    // jal x7, .-256
    Vector {
        word: 0xf01ff3ef,
        x5: 0x0,
        x6: 0x0,
        x7: 0x104,
        data: 0x80ff7f01,
        pc: 0x0,
    },
    // jal x0, .+4094
    Vector {
        word: 0x7ff0006f,
        x5: 0x0,
        x6: 0x0,
        x7: 0x0,
        data: 0x80ff7f01,
        pc: 0x10fe,
    },
    // jalr x7, 5(x5)
    Vector {
        word: 0x005283e7,
        x5: 0x200,
        x6: 0x0,
        x7: 0x104,
        data: 0x80ff7f01,
        pc: 0x204,
    },
    // jalr x7, -1(x5)
    Vector {
        word: 0xfff283e7,
        x5: 0x200,
        x6: 0x0,
        x7: 0x104,
        data: 0x80ff7f01,
        pc: 0x1fe,
    },
    // jalr x5, 0(x5)
    Vector {
        word: 0x000282e7,
        x5: 0x300,
        x6: 0x0,
        x7: 0x0,
        data: 0x80ff7f01,
        pc: 0x300,
    },
];
