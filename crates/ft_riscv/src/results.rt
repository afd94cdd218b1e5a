//! The results of operations on words.
ghost use Rattle.std.specs.Prelude.{◌≡◌, ◌<◌};
ghost use Rattle.ft_riscv.specs.Results.{result_of, immediate_result, shift_result, upper_result, holds};

use crate::fields::extended;
use crate::instr::{Condition, ImmediateOperation, Operation, ShiftOperation, UpperOperation};

/// The result of an operation on two registers.
#[tactic(auto, unfolding(crate::specs::Results::result_of))]
pub fn result_of(operation: Operation, a: u64, b: u64) -> u64
    ensures { result ≡ result_of operation a b }
{
    match operation {
        Operation::Add => a.wrapping_add(b),
        Operation::Sub => a.wrapping_sub(b),
        Operation::Sll => a << (b % 64),
        Operation::Sltu => u64::from(a < b),
        Operation::Xor => a ^ b,
        Operation::Srl => a >> (b % 64),
        Operation::Or => a | b,
        Operation::And => a & b,
        Operation::Mul => a.wrapping_mul(b),
        Operation::Remu => if b == 0 { a } else { a % b },
    }
}

/// The result of an operation on a register and a value.
#[tactic(auto, unfolding(crate::specs::Results::immediate_result))]
pub fn immediate_result(operation: ImmediateOperation, a: u64, value: u64) -> u64
    ensures { result ≡ immediate_result operation a value }
{
    match operation {
        ImmediateOperation::Addi => a.wrapping_add(value),
        ImmediateOperation::Sltiu => u64::from(a < value),
        ImmediateOperation::Xori => a ^ value,
        ImmediateOperation::Ori => a | value,
        ImmediateOperation::Andi => a & value,
        ImmediateOperation::Addiw => extended(1 << 31, a.wrapping_add(value) % (1 << 32)),
    }
}

/// The result of a shift by a fixed amount.
#[tactic(auto, unfolding(crate::specs::Results::shift_result))]
pub fn shift_result(operation: ShiftOperation, a: u64, amount: u64) -> u64
    ensures { result ≡ shift_result operation a amount }
{
    match operation {
        ShiftOperation::Slli => a << (amount % 64),
        ShiftOperation::Srli => a >> (amount % 64),
    }
}

/// The result of an instruction with an upper value.
#[tactic(auto, unfolding(crate::specs::Results::upper_result))]
pub fn upper_result(operation: UpperOperation, pc: u64, value: u64) -> u64
    ensures { result ≡ upper_result operation pc value }
{
    match operation {
        UpperOperation::Lui => value,
        UpperOperation::Auipc => pc.wrapping_add(value),
    }
}

/// Whether a branch is taken.
#[tactic(auto, unfolding(crate::specs::Results::holds))]
pub fn holds(condition: Condition, a: u64, b: u64) -> bool
    ensures { result ≡ holds condition a b }
{
    match condition {
        Condition::Equal => a == b,
        Condition::NotEqual => a != b,
        Condition::Less => a < b,
        Condition::NotLess => b <= a,
    }
}
