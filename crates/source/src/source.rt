// A source, line by line.
ghost use Rattle.std.specs.Prelude.{◌≡◌, ℕ, ◌≤◌, IfOk, Some, vec_len};

use crate::fault::{Expected, Fault, Unread};
use crate::operands::{Operands, zero};
use crate::reader::Reader;
use crate::symbols::Symbols;
use encode::order::Order;
use layout::statement::{Operand, Part, Statement, Width};
use lexicon::literal::{number, split};
use lexicon::mnemonic::{Form, form_of};
use rv32::instruction::*;
use std::alloc::{AllocError, Global};

// What a source says: how many cores and lines it is for, where it says so; its statements, and beside them, since `lay_out` reads them as a slice, the line of each; how many symbols there are;
// and all that is wrong with it.
#[derive(Drop)]
pub struct Source {
    pub cores: Option<usize>,
    pub lines: Option<u32>,
    pub statements: Vec<Statement>,
    pub rows: Vec<usize>,
    pub symbols: usize,
    pub faults: Vec<Fault>,
}

// Statements, and the line of each. Two rows and not one of pairs: they are handed out as they are, and not copied.
#[derive(Drop)]
struct Rows {
    statements: Vec<Statement>,
    lines: Vec<usize>,
    ghost paired: { vec_len lines ≡ vec_len statements },
}

// A source that is being read.
#[derive(Drop)]
struct Draft<'a> {
    input: Operands<'a>,
    cores: Option<usize>,
    lines: Option<u32>,
    rows: Rows,
    ghost few_cores: { (n : ℕ) → cores ≡ Some n → (1 ≤ n) × (n ≤ 4) },
    ghost few_lines: { (n : ℕ) → lines ≡ Some n → (1 ≤ n) × (n ≤ 65536) },
}

fn plain(instruction: Instruction) -> Statement {
    Statement::Code {
        instruction,
        order: Order::default(),
        operand: None,
    }
}

fn with_value(instruction: Instruction, operand: Operand) -> Statement {
    Statement::Code {
        instruction,
        order: Order::default(),
        operand: Some(operand),
    }
}

fn add_value(rd: usize, rs1: usize, value: u32) -> Instruction {
    Instruction::OpImm {
        operation: Operation::Add,
        rd,
        rs1,
        value,
    }
}

impl Rows {
    // There is room for both before either is written.
    fn push(&mut self, statement: Statement, line: usize) -> Result<(), AllocError> {
        self.statements.reserve(1)?;
        self.lines.reserve(1)?;
        self.statements.push_reserved(statement);
        self.lines.push_reserved(line);
        Ok(())
    }
}

impl<'a> Draft<'a> {
    fn emit(&mut self, statement: Statement) -> Result<(), Unread> {
        self.rows.push(statement, self.input.line)?;
        Ok(())
    }

    // The first operand of LUI or AUIPC after the register: %hi of a sum, or the upper 20 bits as a number.
    fn upper(&mut self, instruction: Instruction) -> Result<Statement, Unread> {
        let column = self.input.reader.column();
        if self.input.reader.is_next(b'%') {
            return Ok(with_value(instruction, self.input.value()?));
        }
        let number = self.input.constant()?;
        if number > 0xfffff {
            return Err(Unread::At(column, Expected::Upper));
        }
        Ok(plain(match instruction {
            Instruction::Lui { rd, .. } => Instruction::Lui {
                rd,
                value: number << 12,
            },
            Instruction::Auipc { rd, .. } => Instruction::Auipc {
                rd,
                offset: number << 12,
            },
            other => other,
        }))
    }

    fn jal(&mut self) -> Result<Statement, Unread> {
        let rd = match self.input.reader.take_register() {
            Some(rd) => {
                self.input.reader.comma()?;
                rd
            }
            None => 1,
        };
        let to = self.input.sum(Part::Relative)?;
        Ok(with_value(Instruction::Jal { rd, offset: 0 }, to))
    }

    fn jalr(&mut self) -> Result<Statement, Unread> {
        let first = self.input.reader.register()?;
        if self.input.reader.at_end() {
            return Ok(plain(Instruction::Jalr {
                rd: 1,
                rs1: first,
                offset: 0,
            }));
        }
        self.input.reader.comma()?;
        let (offset, rs1) = match self.input.reader.take_register() {
            None => self.input.address()?,
            Some(rs1) if self.input.reader.at_end() => (zero(), rs1),
            Some(rs1) => {
                self.input.reader.comma()?;
                (self.input.value()?, rs1)
            }
        };
        Ok(with_value(
            Instruction::Jalr {
                rd: first,
                rs1,
                offset: 0,
            },
            offset,
        ))
    }

    // A branch between two registers that are read already, to a place that is to be read.
    fn branch(&mut self, kind: BranchKind, rs1: usize, rs2: usize) -> Result<Statement, Unread> {
        self.input.reader.comma()?;
        let to = self.input.sum(Part::Relative)?;
        Ok(with_value(
            Instruction::Branch {
                kind,
                rs1,
                rs2,
                offset: 0,
            },
            to,
        ))
    }

    // The number as one or two instructions that load it.
    fn load_number(&mut self, rd: usize, number: u32) -> Result<(), Unread> {
        let (value, low) = split(number);
        if value == 0 {
            return self.emit(plain(add_value(rd, 0, low)));
        }
        self.emit(plain(Instruction::Lui { rd, value }))?;
        if low != 0 {
            self.emit(plain(add_value(rd, rd, low)))?;
        }
        Ok(())
    }

    // AUIPC, and then an instruction that adds the low part of the way to the same place.
    fn far(&mut self, to: Operand, by: usize, second: Instruction) -> Result<(), Unread> {
        self.emit(with_value(
            Instruction::Auipc { rd: by, offset: 0 },
            Operand {
                part: Part::RelativeHigh,
                sum: to.sum,
            },
        ))?;
        self.emit(with_value(
            second,
            Operand {
                part: Part::RelativeLow,
                sum: to.sum,
            },
        ))
    }

    fn data(&mut self, width: Width) -> Result<(), Unread> {
        // counted: no contract says that each value takes a byte
        for _ in 0..u64::MAX {
            let operand = self.input.value()?;
            self.emit(Statement::Data { width, operand })?;
            if !self.input.reader.take(b',') {
                break;
            }
        }
        Ok(())
    }

    fn equ(&mut self) -> Result<(), Unread> {
        let column = self.input.reader.column();
        let name = self.input.reader.name();
        let name = name.ok_or(Unread::At(column, Expected::Name))?;
        self.input.reader.comma()?;
        let number = self.input.constant()?;
        if self.input.symbols.define_constant(name, number)? {
            Ok(())
        } else {
            Err(Unread::At(column, Expected::NewName))
        }
    }

    // A number from 1 on, by a directive that may stand once.
    fn setting(&mut self, most: u32, range: Expected, is_set: bool) -> Result<u32, Unread>
        ensures { IfOk result (λ n. (1 ≤ n) × (n ≤ most)) }
    {
        let column = self.input.reader.column();
        let number = self.input.constant()?;
        if !(1..=most).contains(&number) {
            return Err(Unread::At(column, range));
        }
        if is_set {
            return Err(Unread::At(column, Expected::Once));
        }
        Ok(number)
    }

    fn cores(&mut self) -> Result<(), Unread> {
        let is_set = self.cores.is_some();
        let number = self.setting(4, Expected::Cores, is_set)?;
        self.cores = Some(number as usize);
        Ok(())
    }

    fn lines(&mut self) -> Result<(), Unread> {
        let is_set = self.lines.is_some();
        let number = self.setting(65536, Expected::Lines, is_set)?;
        self.lines = Some(number);
        Ok(())
    }

    // An instruction that is one statement.
    fn single(&mut self, form: Form) -> Result<Statement, Unread> {
        match form {
            Form::Alone(instruction) => return Ok(plain(instruction)),
            Form::Jal => return self.jal(),
            Form::Jalr => return self.jalr(),
            Form::Jump => {
                let to = self.input.sum(Part::Relative)?;
                return Ok(with_value(Instruction::Jal { rd: 0, offset: 0 }, to));
            }
            _ => {}
        }
        let first = self.input.reader.register()?;
        match form {
            Form::JumpRegister => {
                return Ok(plain(Instruction::Jalr {
                    rd: 0,
                    rs1: first,
                    offset: 0,
                }));
            }
            Form::BranchZero(kind) => return self.branch(kind, first, 0),
            Form::ZeroBranch(kind) => return self.branch(kind, 0, first),
            _ => self.input.reader.comma()?,
        }
        self.after_first(form, first)
    }

    // The operands after the first register and a comma.
    fn after_first(&mut self, form: Form, first: usize) -> Result<Statement, Unread> {
        match form {
            Form::Lui => return self.upper(Instruction::Lui {
                rd: first,
                value: 0,
            }),
            Form::Auipc => return self.upper(Instruction::Auipc {
                rd: first,
                offset: 0,
            }),
            Form::Load(kind) => {
                let (offset, rs1) = self.input.address()?;
                return Ok(with_value(
                    Instruction::Load {
                        kind,
                        rd: first,
                        rs1,
                        offset: 0,
                    },
                    offset,
                ));
            }
            Form::Store(kind) => {
                let (offset, rs1) = self.input.address()?;
                return Ok(with_value(
                    Instruction::Store {
                        kind,
                        rs1,
                        rs2: first,
                        offset: 0,
                    },
                    offset,
                ));
            }
            _ => {}
        }
        let second = self.input.reader.register()?;
        self.after_second(form, first, second)
    }

    // The operands after the second register.
    fn after_second(
        &mut self,
        form: Form,
        first: usize,
        second: usize,
    ) -> Result<Statement, Unread> {
        match form {
            Form::Branch(kind) => self.branch(kind, first, second),
            Form::BranchSwapped(kind) => self.branch(kind, second, first),
            Form::Unary(operation, value) => Ok(plain(Instruction::OpImm {
                operation,
                rd: first,
                rs1: second,
                value,
            })),
            Form::FromZero(operation) => Ok(plain(Instruction::Op {
                operation,
                rd: first,
                rs1: 0,
                rs2: second,
            })),
            Form::WithZero(operation) => Ok(plain(Instruction::Op {
                operation,
                rd: first,
                rs1: second,
                rs2: 0,
            })),
            Form::Immediate(operation) => {
                self.input.reader.comma()?;
                let operand = self.input.value()?;
                Ok(with_value(
                    Instruction::OpImm {
                        operation,
                        rd: first,
                        rs1: second,
                        value: 0,
                    },
                    operand,
                ))
            }
            Form::Registers(operation) => {
                self.input.reader.comma()?;
                Ok(plain(Instruction::Op {
                    operation,
                    rd: first,
                    rs1: second,
                    rs2: self.input.reader.register()?,
                }))
            }
            Form::Amo(kind, order) => {
                self.input.reader.comma()?;
                Ok(Statement::Code {
                    instruction: Instruction::Amo {
                        kind,
                        rd: first,
                        rs1: self.input.reader.base()?,
                        rs2: second,
                    },
                    order,
                    operand: None,
                })
            }
            _ => self.input.reader.fault(Expected::Mnemonic),
        }
    }

    // A directive, or an instruction that may be two statements; else one that is one.
    fn statement(&mut self, form: Form) -> Result<(), Unread> {
        match form {
            Form::Data(width) => self.data(width),
            Form::Equ => self.equ(),
            Form::Cores => self.cores(),
            Form::Lines => self.lines(),
            Form::Org => {
                let address = self.input.constant()?;
                self.emit(Statement::Origin { address })
            }
            Form::Align => {
                let bits = self.input.constant()?;
                self.emit(Statement::Align { bits })
            }
            Form::Li => {
                let rd = self.input.reader.register()?;
                self.input.reader.comma()?;
                let number = self.input.constant()?;
                self.load_number(rd, number)
            }
            Form::La => {
                let rd = self.input.reader.register()?;
                self.input.reader.comma()?;
                let to = self.input.sum(Part::Whole)?;
                self.far(to, rd, add_value(rd, rd, 0))
            }
            Form::Far { by, back } => {
                let to = self.input.sum(Part::Whole)?;
                self.far(
                    to,
                    by,
                    Instruction::Jalr {
                        rd: back,
                        rs1: by,
                        offset: 0,
                    },
                )
            }
            _ => {
                let statement = self.single(form)?;
                self.emit(statement)
            }
        }
    }

    // A label at the front of what is left of a line, if there is one: a name or a number, and a colon.
    fn label(&mut self) -> Result<bool, Unread> {
        let mut ahead = self.input.reader;
        let column = ahead.column();
        let word = ahead.word();
        if !ahead.take(b':') {
            return Ok(false);
        }
        let name = self.input.reader.name();
        self.input.reader = ahead;
        let symbol = match number(word) {
            Some(n) => self.input.symbols.define_local(n)?,
            None => {
                let name = name.ok_or(Unread::At(column, Expected::Name))?;
                let symbol = self.input.symbols.define_label(name)?;
                symbol.ok_or(Unread::At(column, Expected::NewName))?
            }
        };
        self.emit(Statement::Label { symbol })?;
        Ok(true)
    }

    // A line: labels, then at most one statement.
    fn read_line(&mut self) -> Result<(), Unread> {
        // counted: no contract says that each label takes a byte
        for _ in 0..u64::MAX {
            if !self.label()? {
                break;
            }
        }
        if self.input.reader.at_end() {
            return Ok(());
        }
        let column = self.input.reader.column();
        let name = self.input.reader.name();
        let name = name.ok_or(Unread::At(column, Expected::Statement))?;
        let form = form_of(name).ok_or(Unread::At(column, Expected::Mnemonic))?;
        self.statement(form)?;
        if self.input.reader.at_end() {
            Ok(())
        } else {
            self.input.reader.fault(Expected::EndOfLine)
        }
    }
}

// The line that comes next; a fault in it is taken down.
fn add_line<'a>(
    draft: &mut Draft<'a>,
    faults: &mut Vec<Fault>,
    line: usize,
    text: &'a [u8],
) -> Result<(), AllocError> {
    // An empty line says nothing; a source may have many.
    if text.is_empty() {
        return Ok(());
    }
    draft.input.line = line;
    draft.input.reader = Reader::new(text);
    match draft.read_line() {
        Ok(()) => {}
        Err(Unread::At(column, expected)) => faults.push(Fault {
            line,
            column,
            expected,
        })?,
        Err(Unread::NoMemory(e)) => return Err(e),
    }
    Ok(())
}

// Labels that are referred to and stand nowhere.
fn add_undefined(symbols: &Symbols, faults: &mut Vec<Fault>) -> Result<(), AllocError> {
    for mention in symbols.mentions.iter() {
        if !symbols.is_defined(mention.symbol) {
            faults.push(Fault {
                line: mention.line,
                column: mention.column,
                expected: Expected::Defined,
            })?;
        }
    }
    Ok(())
}

// Reads a source whole; what is wrong in a line does not keep the others from being read.
pub fn read(heap: Global, text: &[u8]) -> Result<Source, AllocError>
    ensures rows { IfOk result (λ source. vec_len source.rows ≡ vec_len source.statements) }
    ensures cores { IfOk result (λ source. (n : ℕ) → source.cores ≡ Some n → (1 ≤ n) × (n ≤ 4)) }
    ensures lines { IfOk result (λ source. (n : ℕ) → source.lines ≡ Some n → (1 ≤ n) × (n ≤ 65536)) }
{
    let mut draft = Draft {
        input: Operands {
            reader: Reader::new(text),
            line: 1,
            symbols: Symbols::new(heap),
        },
        cores: None,
        lines: None,
        rows: Rows {
            statements: Vec::new(heap),
            lines: Vec::new(heap),
        },
    };
    let mut faults = Vec::new(heap);
    for (i, line) in text.split(|byte| *byte == b'\n').enumerate() {
        add_line(&mut draft, &mut faults, i.saturating_add(1), line)?;
    }
    add_undefined(&draft.input.symbols, &mut faults)?;
    let symbols = draft.input.symbols.count();
    let Rows {
        statements,
        lines: rows,
    } = draft.rows;
    Ok(Source {
        cores: draft.cores,
        lines: draft.lines,
        symbols,
        statements,
        rows,
        faults,
    })
}
