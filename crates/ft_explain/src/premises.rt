//! The premises of typing rules, in words.
use ft_isa::{Colour, Instr};

/// The colour that the registers an instruction reads must have, if the instruction's name includes it.
fn colour_of(instr: Instr) -> Option<Colour> {
    match instr {
        Instr::Ld { colour, .. } | Instr::St { colour, .. } => Some(colour),
        Instr::JmpG { .. } | Instr::BzG { .. } => Some(Colour::Green),
        Instr::JmpB { .. } | Instr::BzB { .. } => Some(Colour::Blue),
        _ => None,
    }
}

/// What is wrong with a colour.
fn colours(instr: Instr) -> &'static str {
    match colour_of(instr) {
        Some(Colour::Green) => "a register that it reads is not green",
        Some(Colour::Blue) => "a register that it reads is not blue",
        None => "its two operands do not have the same colour",
    }
}

/// What is wrong with a basic type.
fn basic_types(instr: Instr) -> &'static str {
    match instr {
        Instr::Mov { .. } => "its word is not a value of the type that it claims",
        _ => "the stored value does not have the type of the cell",
    }
}

/// What is wrong with the register d.
fn states(instr: Instr) -> &'static str {
    match instr {
        Instr::JmpB { .. } => "no `jmp_G` is pending",
        Instr::BzB { .. } => "no `bz_G` is pending",
        Instr::Halt => "a green jump or branch is still waiting for its blue one",
        _ => "another green jump or branch is still waiting for its blue one",
    }
}

/// What is wrong with the end of a block.
fn ends(instr: Instr) -> &'static str {
    match instr {
        Instr::JmpB { .. } | Instr::Halt => "it ends the block, but instructions follow it there",
        _ => "it is the last instruction of its block, but a block must end with `jmp_B` or `halt`",
    }
}

/// What is wrong with the pending stores.
fn queues(instr: Instr) -> &'static str {
    match instr {
        Instr::Halt => "a green store is still waiting for its blue one",
        _ => "the pending stores are not those that the target's code type expects",
    }
}

/// What is wrong if the premise with this number does not hold.
pub(crate) fn premise(number: u64, instr: Instr) -> &'static str {
    match number {
        1 => "a register that it reads has no type",
        2 => colours(instr),
        3 => basic_types(instr),
        4 => "its address register does not hold the address of a cell (`ref`)",
        5 => "its target register does not hold the address of a block (`code`)",
        6 => states(instr),
        7 => "eight stores are already pending",
        8 => "no green store is pending",
        9 => "its address is not known to be that of the oldest pending store",
        10 => "its value is not known to be that of the oldest pending store",
        11 => "the word that it tests is not known to be the one that `bz_G` tests",
        12 => "its target is not known to be that of the green jump or branch",
        13 => "a register is not what the target's code type expects",
        14 => queues(instr),
        15 => "the memory is not known to be what the target's code type expects",
        16 => "its substitution does not fit the integer variables of the target or of this block",
        17 => ends(instr),
        _ => "the cells of its run do not all have the same type, or that type has 8 `ref`s",
    }
}
