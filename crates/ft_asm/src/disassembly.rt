//! Writes objects as texts.
ghost use Rattle.std.specs.Prelude.{◌≡◌, ◌≤◌, ◌<◌, ◌+◌, ◌++◌, ℕ, length, drop, map, slice_get, slice_range, Some, IfOk, OnOk};
ghost use Rattle.std.specs.List.{flat_map};
ghost use Rattle.ft_types.specs.Objects.{reg_rows, queue_rows};
ghost use Rattle.ft_types.specs.Spellable.{IsSpellable};
ghost use Rattle.ft_types.specs.declared.object.Object.{Object};
ghost use Rattle.ft_types.specs.declared.object.CodeType.{CodeType};
ghost use Rattle.ft_types.specs.declared.object.Block.{Block};
ghost use Rattle.ft_asm.specs.Listings.{code_of, begins_at, parts_of};
ghost use Rattle.ft_asm.specs.Reads.{Reads, text_of};
ghost use Rattle.ft_asm.specs.Pieces.{cell_text, node_text, reg_text, pend_text, type_text, instr_text, part_text, part_of};

use crate::code_lines::put_code;
use crate::node_forms::put_node;
use crate::writing::{put_block, put_cell, put_entry, put_pend, put_reg_row, put_type};
use ft_isa::NoMemory;
use ft_types::Program;
use std::alloc::Global;

/// Appends the lines of the cells.
#[tactic(auto, using(ft_types::proofs::Counted::spellable_counted))]
fn put_cells<P: Program>(out: &mut Vec<u8>, program: &P) -> Result<(), NoMemory>
    requires { IsSpellable (P.object program.now) }
    ensures { OnOk result (out.new.items ≡ out.old.items ++ flat_map cell_text (P.object program.now).cells) }
{
    let count = program.counts().cells;
    for k in 0..count {
        let head = program.cell(k);
        put_cell(out, program.name(k), head.basic, head.init)?;
    }
    Ok(())
}

/// Appends the lines of the nodes.
fn put_nodes<P: Program>(out: &mut Vec<u8>, program: &P) -> Result<(), NoMemory>
    requires { IsSpellable (P.object program.now) }
    ensures { OnOk result (out.new.items ≡ out.old.items ++ flat_map node_text (P.object program.now).nodes) }
{
    for n in 0..program.node_count() {
        put_node(out, program.node(n))?;
    }
    Ok(())
}

/// Appends the lines of the register rows of code type `t`.
fn put_regs<P: Program>(out: &mut Vec<u8>, program: &P, t: u32, count: u32) -> Result<(), NoMemory>
    requires there { t < length (P.object program.now).types }
    requires count { count ≡ length (reg_rows (P.object program.now) t) }
    ensures { OnOk result (out.new.items ≡ out.old.items ++ flat_map reg_text (reg_rows (P.object program.now) t)) }
{
    for j in 0..count {
        put_reg_row(out, program.reg_row(t, j))?;
    }
    Ok(())
}

/// Appends the lines of the queue rows of code type `t`.
fn put_pends<P: Program>(out: &mut Vec<u8>, program: &P, t: u32, count: u32) -> Result<(), NoMemory>
    requires there { t < length (P.object program.now).types }
    requires count { count ≡ length (queue_rows (P.object program.now) t) }
    ensures { OnOk result (out.new.items ≡ out.old.items ++ flat_map pend_text (queue_rows (P.object program.now) t)) }
{
    for j in 0..count {
        let (address, value) = program.queue_row(t, j);
        put_pend(out, address, value)?;
    }
    Ok(())
}

/// Appends the lines of code type `t` and of its rows.
#[tactic(auto, using(ft_types::proofs::Counted::spellable_counted))]
fn put_code_type<P: Program>(out: &mut Vec<u8>, program: &P, t: u32) -> Result<(), NoMemory>
    requires spellable { IsSpellable (P.object program.now) }
    requires there { t < length (P.object program.now).types }
    ensures { (u : CodeType) → slice_get (P.object program.now).types t ≡ Some u → OnOk result (out.new.items ≡ out.old.items ++ type_text u) }
{
    let head = program.code_type(t);
    put_type(out, head.ints, head.memory)?;
    put_regs(out, program, t, head.regs)?;
    put_pends(out, program, t, head.queue)?;
    Ok(())
}

/// Appends the lines of the code types.
#[tactic(auto, using(ft_types::proofs::Counted::spellable_counted))]
fn put_types<P: Program>(out: &mut Vec<u8>, program: &P) -> Result<(), NoMemory>
    requires { IsSpellable (P.object program.now) }
    ensures { OnOk result (out.new.items ≡ out.old.items ++ flat_map type_text (P.object program.now).types) }
{
    let count = program.counts().types;
    for t in 0..count {
        put_code_type(out, program, t)?;
    }
    Ok(())
}

/// Appends the lines of the instructions from `start` up to `end`.
pub fn put_codes<P: Program>(
    out: &mut Vec<u8>,
    program: &P,
    start: u32,
    end: u32,
) -> Result<(), NoMemory>
    requires spellable { IsSpellable (P.object program.now) }
    requires within { end ≤ length (P.object program.now).instrs }
    ensures { OnOk result (out.new.items ≡ out.old.items ++ flat_map (instr_text (P.object program.now).substs) (slice_range (P.object program.now).instrs start end)) }
{
    for i in start..end {
        put_code(out, program, program.instr(i))?;
    }
    Ok(())
}

/// Where block `b` ends: where the next block begins, or after the last instruction.
#[tactic(auto, using(ft_types::proofs::Counted::spellable_counted))]
fn block_end<P: Program>(program: &P, b: u32) -> u32
    requires spellable { IsSpellable (P.object program.now) }
    requires there { b < length (P.object program.now).blocks }
    ensures { result ≡ begins_at (length (P.object program.now).instrs) (drop (b + 1) (P.object program.now).blocks) }
{
    let counts = program.counts();
    if b + 1 < counts.blocks {
        program.block(b + 1).start
    } else {
        counts.instrs
    }
}

/// Appends the lines of block `b`.
fn put_part<P: Program>(out: &mut Vec<u8>, program: &P, b: u32) -> Result<(), NoMemory>
    requires spellable { IsSpellable (P.object program.now) }
    requires there { b < length (P.object program.now).blocks }
    ensures { (x : Block) → slice_get (P.object program.now).blocks b ≡ Some x → OnOk result (out.new.items ≡ out.old.items ++ part_text (part_of (P.object program.now) x (drop (b + 1) (P.object program.now).blocks))) }
{
    let block = program.block(b);
    let end = block_end(program, b);
    put_block(out, block.code_type)?;
    put_codes(out, program, block.start, end)?;
    Ok(())
}

/// Appends the lines of the blocks.
#[tactic(auto, using(ft_types::proofs::Counted::spellable_counted))]
fn put_parts<P: Program>(out: &mut Vec<u8>, program: &P) -> Result<(), NoMemory>
    requires { IsSpellable (P.object program.now) }
    ensures { OnOk result (out.new.items ≡ out.old.items ++ flat_map part_text (parts_of (P.object program.now).instrs (P.object program.now).substs (P.object program.now).blocks)) }
{
    let count = program.counts().blocks;
    for b in 0..count {
        put_part(out, program, b)?;
    }
    Ok(())
}

/// Writes the text of an object.
pub fn disassemble<P: Program>(alloc: Global, program: &P) -> Result<Vec<u8>, NoMemory>
    requires { IsSpellable (P.object program.now) }
    ensures text { IfOk result (λ text. text.items ≡ text_of (P.object program.now)) }
    // The text reads as this object and no other.
    ensures reads { IfOk result (λ text. Reads text.items (P.object program.now)) }
    ensures only { IfOk result (λ text. (other : Object) → Reads text.items other → other ≡ P.object program.now) }
{
    let mut out = Vec::new(alloc);
    put_cells(&mut out, program)?;
    put_nodes(&mut out, program)?;
    put_types(&mut out, program)?;
    put_parts(&mut out, program)?;
    put_entry(&mut out, program.entry())?;
    Ok(out)
}
