//! The fields of a word that stands for an instruction.
ghost use Rattle.std.specs.Prelude.{◌≡◌, ◌<◌, ◌^◌};
ghost use Rattle.ft_riscv.specs.Fields.{opcode, funct3, funct7, funct6, rd, rs1, rs2, extended, value_i, value_s, value_b, value_u, value_j, amount};

use crate::reg::Reg;

pub fn opcode(word: u32) -> u32
    ensures { result ≡ opcode word }
{
    word % 128
}

pub fn funct3(word: u32) -> u32
    ensures { result ≡ funct3 word }
{
    (word >> 12) % 8
}

pub fn funct7(word: u32) -> u32
    ensures { result ≡ funct7 word }
{
    word >> 25
}

pub fn funct6(word: u32) -> u32
    ensures { result ≡ funct6 word }
{
    word >> 26
}

pub fn rd(word: u32) -> Reg
    ensures { result ≡ rd word }
{
    Reg::of_bits(word >> 7)
}

pub fn rs1(word: u32) -> Reg
    ensures { result ≡ rs1 word }
{
    Reg::of_bits(word >> 15)
}

pub fn rs2(word: u32) -> Reg
    ensures { result ≡ rs2 word }
{
    Reg::of_bits(word >> 20)
}

/// The word with these bits, of which the one with the weight `sign` is the sign.
#[tactic(auto, unfolding(crate::specs::Fields::extended))]
pub fn extended(sign: u64, bits: u64) -> u64
    requires { sign < 2 ^ 63 }
    ensures { result ≡ extended sign bits }
{
    if bits < sign {
        bits
    } else {
        bits.wrapping_sub(2 * sign)
    }
}

/// The value of the I format.
pub fn value_i(word: u32) -> u64
    ensures { result ≡ value_i word }
{
    extended(1 << 11, (word >> 20) as u64)
}

/// The offset of the S format.
pub fn value_s(word: u32) -> u64
    ensures { result ≡ value_s word }
{
    let word = word as u64;
    extended(1 << 11, (word >> 25) * 32 + (word >> 7) % 32)
}

/// The offset of the B format.
pub fn value_b(word: u32) -> u64
    ensures { result ≡ value_b word }
{
    let word = word as u64;
    let high = (word >> 31) * 4096 + (word >> 7) % 2 * 2048;
    let low = (word >> 25) % 64 * 32 + (word >> 8) % 16 * 2;
    extended(1 << 12, high + low)
}

/// The value of the U format.
pub fn value_u(word: u32) -> u64
    ensures { result ≡ value_u word }
{
    extended(1 << 31, ((word >> 12) as u64) * 4096)
}

/// The offset of the J format.
pub fn value_j(word: u32) -> u64
    ensures { result ≡ value_j word }
{
    let word = word as u64;
    let high = (word >> 31) * 1048576 + (word >> 12) % 256 * 4096;
    let low = (word >> 20) % 2 * 2048 + (word >> 21) % 1024 * 2;
    extended(1 << 20, high + low)
}

/// The amount of a shift by a fixed amount.
pub fn amount(word: u32) -> u64
    ensures { result ≡ amount word }
{
    ((word >> 20) % 64) as u64
}
