// What each mnemonic and directive is, and which operands follow it.
ghost use Rattle.std.specs.Prelude.{◌≡◌, find, IsTrue, map, option_map};
ghost use Rattle.std.specs.Str.{bytes_eq};
ghost use Rattle.lexicon.specs.Rows.{are_distinct, first_entry};

use encode::order::Order;
use layout::statement::Width;
use rv32::instruction::*;

// How the operands of a line are read, and what of the instruction is known already.
#[derive(Clone, Copy)]
pub enum Form {
    // rd, a number of 20 bits or %hi
    Lui,
    Auipc,
    // rd (ra if not said), where to
    Jal,
    // rd, offset(rs1); or rs1 alone; or rd, rs1, offset
    Jalr,
    // rs1, rs2, where to
    Branch(BranchKind),
    // the same, with the two registers exchanged
    BranchSwapped(BranchKind),
    // a register against x0, where to
    BranchZero(BranchKind),
    // x0 against a register, where to
    ZeroBranch(BranchKind),
    // rd, offset(rs1)
    Load(LoadKind),
    // rs2, offset(rs1)
    Store(StoreKind),
    // rd, rs1, a number
    Immediate(Operation),
    // rd, rs1, rs2
    Registers(Operation),
    // rd, rs2, (rs1)
    Amo(AmoKind, Order),
    // no operand
    Alone(Instruction),
    // rd, a register that stands on the left of this operation with this number
    Unary(Operation, u32),
    // rd, a register that stands on the right of this operation with x0
    FromZero(Operation),
    // rd, a register that stands on the left of this operation with x0
    WithZero(Operation),
    // rd, a number known here
    Li,
    // rd, an address
    La,
    // where to
    Jump,
    // a register
    JumpRegister,
    // where to, by way of this register, with the way back in ra or nowhere
    Far { by: usize, back: usize },
    // values
    Data(Width),
    // an address
    Org,
    // a power of two
    Align,
    // a name, a number known here
    Equ,
    Cores,
    Lines,
}

const PLAIN: Order = Order {
    acquire: false,
    release: false,
};

const ACQUIRE: Order = Order {
    acquire: true,
    release: false,
};

const RELEASE: Order = Order {
    acquire: false,
    release: true,
};

const BOTH: Order = Order {
    acquire: true,
    release: true,
};

// Each mnemonic and directive, once.
const TABLE: [(&str, Form); 83] = [
    ("lui", Form::Lui),
    ("auipc", Form::Auipc),
    ("jal", Form::Jal),
    ("jalr", Form::Jalr),
    ("beq", Form::Branch(BranchKind::Beq)),
    ("bne", Form::Branch(BranchKind::Bne)),
    ("blt", Form::Branch(BranchKind::Blt)),
    ("bge", Form::Branch(BranchKind::Bge)),
    ("bltu", Form::Branch(BranchKind::Bltu)),
    ("bgeu", Form::Branch(BranchKind::Bgeu)),
    ("bgt", Form::BranchSwapped(BranchKind::Blt)),
    ("ble", Form::BranchSwapped(BranchKind::Bge)),
    ("bgtu", Form::BranchSwapped(BranchKind::Bltu)),
    ("bleu", Form::BranchSwapped(BranchKind::Bgeu)),
    ("beqz", Form::BranchZero(BranchKind::Beq)),
    ("bnez", Form::BranchZero(BranchKind::Bne)),
    ("bltz", Form::BranchZero(BranchKind::Blt)),
    ("bgez", Form::BranchZero(BranchKind::Bge)),
    ("bgtz", Form::ZeroBranch(BranchKind::Blt)),
    ("blez", Form::ZeroBranch(BranchKind::Bge)),
    ("lb", Form::Load(LoadKind::Lb)),
    ("lh", Form::Load(LoadKind::Lh)),
    ("lw", Form::Load(LoadKind::Lw)),
    ("lbu", Form::Load(LoadKind::Lbu)),
    ("lhu", Form::Load(LoadKind::Lhu)),
    ("sb", Form::Store(StoreKind::Sb)),
    ("sh", Form::Store(StoreKind::Sh)),
    ("sw", Form::Store(StoreKind::Sw)),
    ("addi", Form::Immediate(Operation::Add)),
    ("slti", Form::Immediate(Operation::Slt)),
    ("sltiu", Form::Immediate(Operation::Sltu)),
    ("xori", Form::Immediate(Operation::Xor)),
    ("ori", Form::Immediate(Operation::Or)),
    ("andi", Form::Immediate(Operation::And)),
    ("slli", Form::Immediate(Operation::Sll)),
    ("srli", Form::Immediate(Operation::Srl)),
    ("srai", Form::Immediate(Operation::Sra)),
    ("add", Form::Registers(Operation::Add)),
    ("sub", Form::Registers(Operation::Sub)),
    ("sll", Form::Registers(Operation::Sll)),
    ("slt", Form::Registers(Operation::Slt)),
    ("sltu", Form::Registers(Operation::Sltu)),
    ("xor", Form::Registers(Operation::Xor)),
    ("srl", Form::Registers(Operation::Srl)),
    ("sra", Form::Registers(Operation::Sra)),
    ("or", Form::Registers(Operation::Or)),
    ("and", Form::Registers(Operation::And)),
    ("amoadd.w", Form::Amo(AmoKind::AmoAdd, PLAIN)),
    ("amoadd.w.aq", Form::Amo(AmoKind::AmoAdd, ACQUIRE)),
    ("amoadd.w.rl", Form::Amo(AmoKind::AmoAdd, RELEASE)),
    ("amoadd.w.aqrl", Form::Amo(AmoKind::AmoAdd, BOTH)),
    ("amoswap.w", Form::Amo(AmoKind::AmoSwap, PLAIN)),
    ("amoswap.w.aq", Form::Amo(AmoKind::AmoSwap, ACQUIRE)),
    ("amoswap.w.rl", Form::Amo(AmoKind::AmoSwap, RELEASE)),
    ("amoswap.w.aqrl", Form::Amo(AmoKind::AmoSwap, BOTH)),
    ("fence", Form::Alone(Instruction::Fence)),
    ("ecall", Form::Alone(Instruction::Ecall)),
    ("ebreak", Form::Alone(Instruction::Ebreak)),
    ("mret", Form::Alone(Instruction::Mret)),
    (
        "nop",
        Form::Alone(Instruction::OpImm {
            operation: Operation::Add,
            rd: 0,
            rs1: 0,
            value: 0,
        }),
    ),
    (
        "ret",
        Form::Alone(Instruction::Jalr {
            rd: 0,
            rs1: 1,
            offset: 0,
        }),
    ),
    ("mv", Form::Unary(Operation::Add, 0)),
    ("not", Form::Unary(Operation::Xor, 0xffff_ffff)),
    ("seqz", Form::Unary(Operation::Sltu, 1)),
    ("neg", Form::FromZero(Operation::Sub)),
    ("snez", Form::FromZero(Operation::Sltu)),
    ("sgtz", Form::FromZero(Operation::Slt)),
    ("sltz", Form::WithZero(Operation::Slt)),
    ("li", Form::Li),
    ("la", Form::La),
    ("j", Form::Jump),
    ("jr", Form::JumpRegister),
    ("call", Form::Far { by: 1, back: 1 }),
    ("tail", Form::Far { by: 6, back: 0 }),
    (".word", Form::Data(Width::Word)),
    (".half", Form::Data(Width::Half)),
    (".byte", Form::Data(Width::Byte)),
    (".org", Form::Org),
    (".align", Form::Align),
    (".equ", Form::Equ),
    (".set", Form::Equ),
    (".cores", Form::Cores),
    (".lines", Form::Lines),
];

// What stands beside a word in the first row that has it.
fn found(table: &[(&str, Form)], name: &[u8]) -> Option<Form>
    ensures { result ≡ option_map (λ row. row.1) (find (λ row. bytes_eq row.0.now name.now) table.now) }
{
    table
        .iter()
        .find(|(word, _)| word.as_bytes() == name)
        .map(|(_, form)| *form)
}

// What a word at the place of a mnemonic is.
pub fn form_of(name: &[u8]) -> Option<Form>
    ensures once { IsTrue (are_distinct (map (λ row. row.0.now) TABLE)) }
    ensures value { result ≡ first_entry (λ row. bytes_eq row.0.now name.now) (λ row. row.1) TABLE }
{
    found(TABLE.as_slice(), name)
}
