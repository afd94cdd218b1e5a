//! Instructions.
use crate::reg::Reg;

/// An operation on two registers.
#[derive(Clone, Copy, Debug, PartialEq, Eq)]
pub enum Operation {
    Add,
    Sub,
    Sll,
    Sltu,
    Xor,
    Srl,
    Or,
    And,
    Mul,
    Remu,
}

/// An operation on a register and a value.
#[derive(Clone, Copy, Debug, PartialEq, Eq)]
pub enum ImmediateOperation {
    Addi,
    Sltiu,
    Xori,
    Ori,
    Andi,
    /// The sum of the lower halves, extended by its sign.
    Addiw,
}

/// A shift of a register by a fixed amount.
#[derive(Clone, Copy, Debug, PartialEq, Eq)]
pub enum ShiftOperation {
    Slli,
    Srli,
}

/// What is done with a value of 20 upper bits.
#[derive(Clone, Copy, Debug, PartialEq, Eq)]
pub enum UpperOperation {
    Lui,
    /// The value is added to the instruction's address.
    Auipc,
}

/// When a branch is taken.
#[derive(Clone, Copy, Debug, PartialEq, Eq)]
pub enum Condition {
    Equal,
    NotEqual,
    /// As unsigned numbers.
    Less,
    /// As unsigned numbers.
    NotLess,
}

/// An instruction. Values and offsets are words, extended by their sign.
#[derive(Clone, Copy, Debug, PartialEq, Eq)]
pub enum Instr {
    Operate {
        operation: Operation,
        rd: Reg,
        rs1: Reg,
        rs2: Reg,
    },
    OperateImmediate {
        operation: ImmediateOperation,
        rd: Reg,
        rs1: Reg,
        value: u64,
    },
    /// The amount is below 64.
    ShiftBy {
        operation: ShiftOperation,
        rd: Reg,
        rs1: Reg,
        amount: u64,
    },
    Upper {
        operation: UpperOperation,
        rd: Reg,
        value: u64,
    },
    /// `ld`.
    Load {
        rd: Reg,
        rs1: Reg,
        offset: u64,
    },
    /// `sd`.
    Store {
        rs1: Reg,
        rs2: Reg,
        offset: u64,
    },
    Branch {
        condition: Condition,
        rs1: Reg,
        rs2: Reg,
        offset: u64,
    },
    /// `jal`.
    Jump {
        rd: Reg,
        offset: u64,
    },
    /// `jalr`.
    JumpRegister {
        rd: Reg,
        rs1: Reg,
        offset: u64,
    },
}
