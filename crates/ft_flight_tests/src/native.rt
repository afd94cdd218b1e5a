//! Encodings that LLVM's assembler made (`clang --target=riscv64 -march=rv64im`), decoded, and jumps as
//! the manual of the instructions defines them.
use ft_riscv::{
    Condition, Effect, Hart, ImmediateOperation, Instr, Operation, Reg, ShiftOperation,
    UpperOperation, decode,
};
use std::test::Fail;

/// The register with this number.
fn x(number: u32) -> Reg {
    Reg::of_bits(number)
}

/// Whether a word is decoded as an instruction.
fn is_decoded(word: u32, instr: Instr) -> bool {
    decode(word) == Some(instr)
}

/// Whether encodings of jumps are decoded.
fn jumps_are_decoded() -> bool {
    // addi x1, x2, -1
    is_decoded(
        0xfff10093,
        Instr::OperateImmediate {
            operation: ImmediateOperation::Addi,
            rd: x(1),
            rs1: x(2),
            value: 0u64.wrapping_sub(1),
        },
    ) && // lui x10, 0x12345
        is_decoded(
        0x12345537,
        Instr::Upper {
            operation: UpperOperation::Lui,
            rd: x(10),
            value: 305418240,
        },
    ) && // auipc x5, 1
        is_decoded(
        0x00001297,
        Instr::Upper {
            operation: UpperOperation::Auipc,
            rd: x(5),
            value: 4096,
        },
    ) && // jal x1, .-8
        is_decoded(
        0xff9ff0ef,
        Instr::Jump {
            rd: x(1),
            offset: 0u64.wrapping_sub(8),
        },
    ) && // jal x0, .+8
        is_decoded(
        0x0080006f,
        Instr::Jump {
            rd: x(0),
            offset: 8,
        },
    ) && // jal x5, .-4116
        is_decoded(
        0xfedfe2ef,
        Instr::Jump {
            rd: x(5),
            offset: 0u64.wrapping_sub(4116),
        },
    ) && // jalr x1, -3(x17)
        is_decoded(
        0xffd880e7,
        Instr::JumpRegister {
            rd: x(1),
            rs1: x(17),
            offset: 0u64.wrapping_sub(3),
        },
    ) && // beq x10, x11, .-4
        is_decoded(
        0xfeb50ee3,
        Instr::Branch {
            condition: Condition::Equal,
            rs1: x(10),
            rs2: x(11),
            offset: 0u64.wrapping_sub(4),
        },
    ) && // bne x5, x6, .-4096
        is_decoded(
        0x80629063,
        Instr::Branch {
            condition: Condition::NotEqual,
            rs1: x(5),
            rs2: x(6),
            offset: 0u64.wrapping_sub(4096),
        },
    ) && // bltu x10, x11, .+2050
        is_decoded(
        0x00b561e3,
        Instr::Branch {
            condition: Condition::Less,
            rs1: x(10),
            rs2: x(11),
            offset: 2050,
        },
    ) && // bgeu x31, x30, .+4094
        is_decoded(
        0x7fefffe3,
        Instr::Branch {
            condition: Condition::NotLess,
            rs1: x(31),
            rs2: x(30),
            offset: 4094,
        },
    )
}

/// Whether encodings of loads, stores and operations with a value are decoded.
fn values_are_decoded() -> bool {
    // ld x10, 8(x2)
    is_decoded(
        0x00813503,
        Instr::Load {
            rd: x(10),
            rs1: x(2),
            offset: 8,
        },
    ) && // sd x1, -8(x2)
        is_decoded(
        0xfe113c23,
        Instr::Store {
            rs1: x(2),
            rs2: x(1),
            offset: 0u64.wrapping_sub(8),
        },
    ) && // sd x31, 2047(x16)
        is_decoded(
        0x7ff83fa3,
        Instr::Store {
            rs1: x(16),
            rs2: x(31),
            offset: 2047,
        },
    ) && // sltiu x7, x8, 1
        is_decoded(
        0x00143393,
        Instr::OperateImmediate {
            operation: ImmediateOperation::Sltiu,
            rd: x(7),
            rs1: x(8),
            value: 1,
        },
    ) && // andi x9, x10, -2048
        is_decoded(
        0x80057493,
        Instr::OperateImmediate {
            operation: ImmediateOperation::Andi,
            rd: x(9),
            rs1: x(10),
            value: 0u64.wrapping_sub(2048),
        },
    ) && // addiw x10, x10, -7
        is_decoded(
        0xff95051b,
        Instr::OperateImmediate {
            operation: ImmediateOperation::Addiw,
            rd: x(10),
            rs1: x(10),
            value: 0u64.wrapping_sub(7),
        },
    ) && // slli x10, x10, 40
        is_decoded(
        0x02851513,
        Instr::ShiftBy {
            operation: ShiftOperation::Slli,
            rd: x(10),
            rs1: x(10),
            amount: 40,
        },
    ) && // srli x10, x10, 63
        is_decoded(
        0x03f55513,
        Instr::ShiftBy {
            operation: ShiftOperation::Srli,
            rd: x(10),
            rs1: x(10),
            amount: 63,
        },
    )
}

/// Whether encodings of operations on registers are decoded.
fn operations_are_decoded() -> bool {
    // sub x10, x11, x12
    is_decoded(
        0x40c58533,
        Instr::Operate {
            operation: Operation::Sub,
            rd: x(10),
            rs1: x(11),
            rs2: x(12),
        },
    ) && // mul x10, x11, x12
        is_decoded(
        0x02c58533,
        Instr::Operate {
            operation: Operation::Mul,
            rd: x(10),
            rs1: x(11),
            rs2: x(12),
        },
    ) && // remu x10, x11, x12
        is_decoded(
        0x02c5f533,
        Instr::Operate {
            operation: Operation::Remu,
            rd: x(10),
            rs1: x(11),
            rs2: x(12),
        },
    ) && // sltu x10, x11, x12
        is_decoded(
        0x00c5b533,
        Instr::Operate {
            operation: Operation::Sltu,
            rd: x(10),
            rs1: x(11),
            rs2: x(12),
        },
    )
}

#[test]
fn encodings_are_decoded(rt: HostRuntime) -> Result<(), Fail> {
    assert!(rt; jumps_are_decoded());
    assert!(rt; values_are_decoded());
    assert!(rt; operations_are_decoded());
    // ecall, and slt x10, x11, x12: neither is in the table.
    assert!(rt; decode(0x0000_0073).is_none() && decode(0x00c5_a533).is_none());
    Ok(())
}

/// The hart that executes jumps.
const BEFORE: Hart = Hart {
    registers: [7; 31],
    pc: 4096,
};

/// Whether an instruction traps and leaves the hart as it was.
fn traps(instr: Instr) -> bool {
    let words = [0; 1];
    let mut hart = BEFORE;
    hart.execute(instr, 0, words.as_slice()) == Effect::Traps && hart == BEFORE
}

/// Whether an instruction goes on at an address, with this word in `x1`.
fn goes_on(instr: Instr, pc: u64, link: u64) -> bool {
    let words = [0; 1];
    let mut hart = BEFORE;
    hart.execute(instr, 0, words.as_slice()) == Effect::Nothing
        && hart.pc == pc
        && hart.register(x(1)) == link
}

/// The jump by an offset, which writes `x1`.
fn jump(offset: u64) -> Instr {
    Instr::Jump { rd: x(1), offset }
}

/// The jump to an address, which writes `x1`.
fn jump_to(offset: u64) -> Instr {
    Instr::JumpRegister {
        rd: x(1),
        rs1: x(0),
        offset,
    }
}

/// A branch on two registers that are equal.
fn branch(condition: Condition, offset: u64) -> Instr {
    Instr::Branch {
        condition,
        rs1: x(1),
        rs2: x(2),
        offset,
    }
}

#[test]
fn misaligned_targets_trap(rt: HostRuntime) -> Result<(), Fail> {
    assert!(rt; goes_on(jump(8), 4104, 4100) && traps(jump(6)));
    // The lowest bit is cleared first.
    assert!(rt; goes_on(jump_to(2001), 2000, 4100) && traps(jump_to(2003)));
    assert!(rt;
        goes_on(branch(Condition::Equal, 8), 4104, 7) && traps(branch(Condition::Equal, 6))
    );
    // The target of a branch that is not taken does not matter.
    assert!(rt; goes_on(branch(Condition::NotEqual, 6), 4100, 7));
    Ok(())
}
