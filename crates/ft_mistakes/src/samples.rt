//! Sample lines of assembly texts: one or more for each kind of instruction and each kind of node.
//!
//! The kinds come from the object format, and `ft_asm` writes the lines, so this module needs no list of kinds.
use ft_asm::{assemble_bytes, disassemble};
use ft_isa::NoMemory;
use ft_view::View;
use std::alloc::Global;

/// A text in which samples replace the last node and the only instruction.
const TEXT: &[u8] =
    b"cell a int 0\nnode 1 memory\nnode 1 word 0\nnode 1 word 0\ntype 1 0\nblock 0\nhalt\nentry 0\n";

/// A place for samples: where its record begins in that text's object, and the number of its line, counted from 0.
#[derive(Clone, Copy)]
pub(crate) struct Slot {
    record: usize,
    line: usize,
}

/// The last node. The header has 48 bytes, and the records of a cell and of two nodes have 16 each.
pub(crate) const NODE: Slot = Slot {
    record: 96,
    line: 3,
};

/// The instruction. The records of a node and of a type have 16 bytes each, and that of a block has 8.
pub(crate) const INSTR: Slot = Slot {
    record: 136,
    line: 6,
};

/// How many kinds are tried.
const KINDS: u8 = 64;

/// How many records of each kind are tried.
const TRIED: u8 = 16;

/// Sets a byte of an object, if it has one there.
fn put(object: &mut [u8], at: usize, byte: u8) {
    if let Some(place) = object.get_mut(at) {
        *place = byte;
    }
}

/// Puts the record of this kind and number into a slot. The bits of the number set its colour or register and its three
/// numbers to 0 or 1.
fn put_sample(object: &mut [u8], slot: Slot, kind: u8, number: u8) {
    let at = slot.record;
    put(object, at, kind);
    put(object, at.saturating_add(3), number % 2);
    put(object, at.saturating_add(7), number / 2 % 2);
    put(object, at.saturating_add(11), number / 4 % 2);
    put(object, at.saturating_add(15), number / 8 % 2);
}

/// Adds the line of an object's slot, unless the object breaks a rule of its format.
fn add_line(alloc: Global, lines: &mut String, object: &[u8], slot: Slot) -> Result<(), NoMemory> {
    let Ok(view) = View::over(object) else {
        return Ok(());
    };
    let text = disassemble(alloc, &view)?;
    let text = str::from_utf8(text.as_slice()).unwrap_or("");
    lines.push_str(text.lines().nth(slot.line).unwrap_or(""))?;
    lines.push('\n')?;
    Ok(())
}

/// Adds the lines of a kind.
fn add_kind(
    alloc: Global,
    lines: &mut String,
    object: &mut Vec<u8>,
    slot: Slot,
    kind: u8,
) -> Result<(), NoMemory> {
    for number in 0..TRIED {
        put_sample(object.as_mut_slice(), slot, kind, number);
        add_line(alloc, lines, object.as_slice(), slot)?;
    }
    Ok(())
}

/// Adds the lines of all kinds for a slot of this object.
fn add_kinds(
    alloc: Global,
    lines: &mut String,
    object: &mut Vec<u8>,
    slot: Slot,
) -> Result<(), NoMemory> {
    for kind in 0..KINDS {
        add_kind(alloc, lines, object, slot, kind)?;
    }
    Ok(())
}

/// Sample lines of all kinds for a slot, grouped by kind.
pub(crate) fn sample_lines(alloc: Global, slot: Slot) -> Result<String, NoMemory> {
    let Ok(mut object) = assemble_bytes(alloc, TEXT) else {
        return Err(NoMemory);
    };
    let mut lines = String::new(alloc);
    add_kinds(alloc, &mut lines, &mut object, slot)?;
    Ok(lines)
}
