//! The instructions, and which registers each reads and writes.
ghost use Rattle.std.specs.Prelude.{◌≡◌};

use crate::basic::Basic;
use crate::colour::{Colour, Coloured};
use crate::op::Op;
use crate::reg::Reg;

/// The substitution of a blue jump or branch: the rows from `first` up to but not including `past` of the table of
/// substitution rows, one for each of the target's integer variables in order, and the node for its memory.
#[derive(Clone, Copy, Debug, PartialEq, Eq)]
pub struct Subst {
    pub first: u32,
    pub past: u32,
    pub memory: u32,
}

/// An instruction. `rd` is the destination or the address, `rs` and `rt` are sources, and `rz` is
/// tested for zero.
#[derive(Clone, Copy, Debug, PartialEq, Eq)]
pub enum Instr {
    /// `op rd, rs, rt`
    OpReg {
        op: Op,
        rd: Reg,
        rs: Reg,
        rt: Reg,
    },
    /// `op rd, rs, c v`
    OpWord {
        op: Op,
        rd: Reg,
        rs: Reg,
        value: Coloured,
    },
    /// `mov rd, c v`, which claims a basic type for the word.
    Mov {
        rd: Reg,
        basic: Basic,
        value: Coloured,
    },
    /// `ld_c rd, rs`
    Ld {
        colour: Colour,
        rd: Reg,
        rs: Reg,
    },
    /// `st_c rd, rs`
    St {
        colour: Colour,
        rd: Reg,
        rs: Reg,
    },
    /// `jmp_G rd`
    JmpG {
        rd: Reg,
    },
    /// `jmp_B rd`
    JmpB {
        rd: Reg,
        subst: Subst,
    },
    /// `bz_G rz, rd`
    BzG {
        rz: Reg,
        rd: Reg,
    },
    /// `bz_B rz, rd`
    BzB {
        rz: Reg,
        rd: Reg,
        subst: Subst,
    },
    /// `halt`
    Halt,
    /// `idx rd, rs, first, length`: the address of the cell at `first` plus `rs` modulo `length`.
    Idx {
        rd: Reg,
        rs: Reg,
        first: u32,
        length: u32,
    },
}

impl Instr {
    ghost use Rattle.ft_isa.specs.Instructions.{first_read, is_blue_store, is_fixed, is_green_store, is_leading, number_of, second_read, written};

    /// Whether it is fixed: a jump, a branch or `halt`.
    pub fn is_fixed(&self) -> bool
        ensures { result ≡ is_fixed self.now }
    {
        match self {
            Instr::JmpG { .. }
            | Instr::JmpB { .. }
            | Instr::BzG { .. }
            | Instr::BzB { .. }
            | Instr::Halt => true,
            _ => false,
        }
    }

    /// Whether it is leading.
    pub fn is_leading(&self) -> bool
        ensures { result ≡ is_leading self.now }
    {
        match self {
            Instr::OpReg { rs, .. } => rs.number() < 32,
            Instr::OpWord { value, .. } => value.colour.is_green(),
            Instr::Mov { value, .. } => value.colour.is_green(),
            Instr::Ld { colour, .. } => colour.is_green(),
            Instr::St { colour, .. } => colour.is_green(),
            Instr::Idx { rs, .. } => rs.number() < 32,
            _ => false,
        }
    }

    /// The register that it writes, if it writes one.
    pub fn written(&self) -> Option<Reg>
        ensures { number_of result ≡ written self.now }
    {
        match self {
            Instr::OpReg { rd, .. } => Some(*rd),
            Instr::OpWord { rd, .. } => Some(*rd),
            Instr::Mov { rd, .. } => Some(*rd),
            Instr::Ld { rd, .. } => Some(*rd),
            Instr::Idx { rd, .. } => Some(*rd),
            _ => None,
        }
    }

    /// The first register that it reads, if it reads one.
    pub fn first_read(&self) -> Option<Reg>
        ensures { number_of result ≡ first_read self.now }
    {
        match self {
            Instr::OpReg { rs, .. } => Some(*rs),
            Instr::OpWord { rs, .. } => Some(*rs),
            Instr::Ld { rs, .. } => Some(*rs),
            Instr::St { rd, .. } => Some(*rd),
            Instr::JmpG { rd } => Some(*rd),
            Instr::JmpB { rd, .. } => Some(*rd),
            Instr::BzG { rz, .. } => Some(*rz),
            Instr::BzB { rz, .. } => Some(*rz),
            Instr::Idx { rs, .. } => Some(*rs),
            _ => None,
        }
    }

    /// The second register that it reads, if it reads two.
    pub fn second_read(&self) -> Option<Reg>
        ensures { number_of result ≡ second_read self.now }
    {
        match self {
            Instr::OpReg { rt, .. } => Some(*rt),
            Instr::St { rs, .. } => Some(*rs),
            Instr::BzG { rd, .. } => Some(*rd),
            Instr::BzB { rd, .. } => Some(*rd),
            _ => None,
        }
    }

    /// Whether it is a green store.
    pub fn is_green_store(&self) -> bool
        ensures { result ≡ is_green_store self.now }
    {
        match self {
            Instr::St { colour, .. } => colour.is_green(),
            _ => false,
        }
    }

    /// Whether it is a blue store.
    pub fn is_blue_store(&self) -> bool
        ensures { result ≡ is_blue_store self.now }
    {
        match self {
            Instr::St { colour, .. } => !colour.is_green(),
            _ => false,
        }
    }
}
