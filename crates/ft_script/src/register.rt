//! Registers by name.
use ft_isa::Reg;

/// A register that a session shows: a general one, the destination register d, or a program counter.
#[derive(Clone, Copy, Debug, PartialEq, Eq)]
pub enum Register {
    R(Reg),
    D,
    PcG,
    PcB,
}
