//! The registers that instructions read.
use ft_isa::{Instr, Reg};

/// The registers that an instruction reads, in the order in which its rule examines them.
pub(crate) fn reads(instr: Instr) -> [Option<Reg>; 2] {
    [instr.first_read(), instr.second_read()]
}

/// The register that a blue jump or branch takes its target from.
pub(crate) fn target_of(instr: Instr) -> Option<Reg> {
    match instr {
        Instr::JmpB { rd, .. } | Instr::BzB { rd, .. } => Some(rd),
        _ => None,
    }
}
