//! The table of instructions, and the decoder.
ghost use Rattle.std.specs.Prelude.{◌≡◌, Option};
ghost use Rattle.ft_riscv.specs.Table.{has_funct3, has_high, fits, spelled, decoded, first_fitting, table};

use crate::fields::{
    amount, funct3, funct6, funct7, opcode, rd, rs1, rs2, value_b, value_i, value_j, value_s,
    value_u,
};
use crate::instr::{
    Condition, ImmediateOperation, Instr, Operation, ShiftOperation, UpperOperation,
};

/// What the upper bits of a word must be.
#[derive(Clone, Copy, Debug, PartialEq, Eq)]
pub enum High {
    Any,
    /// The seven upper bits.
    Seven(u32),
    /// The six upper bits.
    Six(u32),
}

/// An operation with the format that spells it.
#[derive(Clone, Copy, Debug, PartialEq, Eq)]
pub enum Form {
    R(Operation),
    I(ImmediateOperation),
    IShift(ShiftOperation),
    ILoad,
    IJump,
    S,
    B(Condition),
    U(UpperOperation),
    J,
}

/// A row of the table.
#[derive(Clone, Copy, Debug, PartialEq, Eq)]
pub struct Row {
    pub opcode: u32,
    pub funct3: Option<u32>,
    pub high: High,
    pub form: Form,
}

/// The table, a row for each instruction.
const TABLE: [Row; 28] = [
    Row {
        opcode: 0x37,
        funct3: None,
        high: High::Any,
        form: Form::U(UpperOperation::Lui),
    },
    Row {
        opcode: 0x17,
        funct3: None,
        high: High::Any,
        form: Form::U(UpperOperation::Auipc),
    },
    Row {
        opcode: 0x6F,
        funct3: None,
        high: High::Any,
        form: Form::J,
    },
    Row {
        opcode: 0x67,
        funct3: Some(0),
        high: High::Any,
        form: Form::IJump,
    },
    Row {
        opcode: 0x63,
        funct3: Some(0),
        high: High::Any,
        form: Form::B(Condition::Equal),
    },
    Row {
        opcode: 0x63,
        funct3: Some(1),
        high: High::Any,
        form: Form::B(Condition::NotEqual),
    },
    Row {
        opcode: 0x63,
        funct3: Some(6),
        high: High::Any,
        form: Form::B(Condition::Less),
    },
    Row {
        opcode: 0x63,
        funct3: Some(7),
        high: High::Any,
        form: Form::B(Condition::NotLess),
    },
    Row {
        opcode: 0x03,
        funct3: Some(3),
        high: High::Any,
        form: Form::ILoad,
    },
    Row {
        opcode: 0x23,
        funct3: Some(3),
        high: High::Any,
        form: Form::S,
    },
    Row {
        opcode: 0x13,
        funct3: Some(0),
        high: High::Any,
        form: Form::I(ImmediateOperation::Addi),
    },
    Row {
        opcode: 0x13,
        funct3: Some(3),
        high: High::Any,
        form: Form::I(ImmediateOperation::Sltiu),
    },
    Row {
        opcode: 0x13,
        funct3: Some(4),
        high: High::Any,
        form: Form::I(ImmediateOperation::Xori),
    },
    Row {
        opcode: 0x13,
        funct3: Some(6),
        high: High::Any,
        form: Form::I(ImmediateOperation::Ori),
    },
    Row {
        opcode: 0x13,
        funct3: Some(7),
        high: High::Any,
        form: Form::I(ImmediateOperation::Andi),
    },
    Row {
        opcode: 0x1B,
        funct3: Some(0),
        high: High::Any,
        form: Form::I(ImmediateOperation::Addiw),
    },
    Row {
        opcode: 0x13,
        funct3: Some(1),
        high: High::Six(0),
        form: Form::IShift(ShiftOperation::Slli),
    },
    Row {
        opcode: 0x13,
        funct3: Some(5),
        high: High::Six(0),
        form: Form::IShift(ShiftOperation::Srli),
    },
    Row {
        opcode: 0x33,
        funct3: Some(0),
        high: High::Seven(0),
        form: Form::R(Operation::Add),
    },
    Row {
        opcode: 0x33,
        funct3: Some(0),
        high: High::Seven(32),
        form: Form::R(Operation::Sub),
    },
    Row {
        opcode: 0x33,
        funct3: Some(1),
        high: High::Seven(0),
        form: Form::R(Operation::Sll),
    },
    Row {
        opcode: 0x33,
        funct3: Some(3),
        high: High::Seven(0),
        form: Form::R(Operation::Sltu),
    },
    Row {
        opcode: 0x33,
        funct3: Some(4),
        high: High::Seven(0),
        form: Form::R(Operation::Xor),
    },
    Row {
        opcode: 0x33,
        funct3: Some(5),
        high: High::Seven(0),
        form: Form::R(Operation::Srl),
    },
    Row {
        opcode: 0x33,
        funct3: Some(6),
        high: High::Seven(0),
        form: Form::R(Operation::Or),
    },
    Row {
        opcode: 0x33,
        funct3: Some(7),
        high: High::Seven(0),
        form: Form::R(Operation::And),
    },
    Row {
        opcode: 0x33,
        funct3: Some(0),
        high: High::Seven(1),
        form: Form::R(Operation::Mul),
    },
    Row {
        opcode: 0x33,
        funct3: Some(7),
        high: High::Seven(1),
        form: Form::R(Operation::Remu),
    },
];

impl Row {
    /// Whether the row is a word's.
    fn fits(&self, word: u32) -> bool
        ensures { result ≡ fits self.now word }
    {
        self.opcode == opcode(word) && has_funct3(self.funct3, word) && has_high(self.high, word)
    }
}

fn has_funct3(wanted: Option<u32>, word: u32) -> bool
    ensures { result ≡ has_funct3 wanted word }
{
    match wanted {
        None => true,
        Some(n) => funct3(word) == n,
    }
}

fn has_high(wanted: High, word: u32) -> bool
    ensures { result ≡ has_high wanted word }
{
    match wanted {
        High::Any => true,
        High::Seven(n) => funct7(word) == n,
        High::Six(n) => funct6(word) == n,
    }
}

/// The instruction of this form that a word spells.
fn spelled(form: Form, word: u32) -> Instr
    ensures { result ≡ spelled form word }
{
    match form {
        Form::R(operation) => Instr::Operate {
            operation,
            rd: rd(word),
            rs1: rs1(word),
            rs2: rs2(word),
        },
        Form::I(operation) => Instr::OperateImmediate {
            operation,
            rd: rd(word),
            rs1: rs1(word),
            value: value_i(word),
        },
        Form::IShift(operation) => Instr::ShiftBy {
            operation,
            rd: rd(word),
            rs1: rs1(word),
            amount: amount(word),
        },
        Form::ILoad => Instr::Load {
            rd: rd(word),
            rs1: rs1(word),
            offset: value_i(word),
        },
        Form::IJump => Instr::JumpRegister {
            rd: rd(word),
            rs1: rs1(word),
            offset: value_i(word),
        },
        Form::S => Instr::Store {
            rs1: rs1(word),
            rs2: rs2(word),
            offset: value_s(word),
        },
        Form::B(condition) => Instr::Branch {
            condition,
            rs1: rs1(word),
            rs2: rs2(word),
            offset: value_b(word),
        },
        Form::U(operation) => Instr::Upper {
            operation,
            rd: rd(word),
            value: value_u(word),
        },
        Form::J => Instr::Jump {
            rd: rd(word),
            offset: value_j(word),
        },
    }
}

/// The instruction that a word stands for; `None` if the table has no row for it.
#[tactic(auto, unfolding(crate::specs::Table::decoded, crate::specs::Table::table))]
pub fn decode(word: u32) -> Option<Instr>
    ensures { result ≡ decoded word }
{
    first_fitting(&TABLE, word)
}

/// The instruction that the first fitting row spells.
fn first_fitting(rows: &[Row], word: u32) -> Option<Instr>
    ensures { result ≡ first_fitting rows.now word }
{
    for row in rows {
        if row.fits(word) {
            return Some(spelled(row.form, word));
        }
    }
    None
}
