//! Copies objects from views.
ghost use Rattle.std.specs.Prelude.{◌≡◌, ◌<◌, [], length, IfOk, OnOk, Some, slice_get};
ghost use Rattle.ft_types.specs.Objects.{IsCounted, reg_rows, queue_rows};
ghost use Rattle.ft_format.specs.Broken.{object_of};
ghost use Rattle.ft_object.specs.Judged.{OnlyMemory};

use crate::decode_error::DecodeError;
use crate::memory::{copy, push, reserve};
use ft_isa::Instr;
use ft_static::{Node, Nodes};
use ft_types::{Block, Cell, CodeType, Object, Program, RegType, Table};
use ft_view::View;
use std::alloc::Global;

/// Copies the nodes into an empty vector.
fn copy_nodes(view: &View, nodes: &mut Vec<Node>) -> Result<(), DecodeError>
    requires counted { IsCounted (object_of view.now) }
    requires empty { nodes.old.items ≡ [] }
    ensures copied { OnOk result (nodes.new.items ≡ (object_of view.now).nodes) }
    ensures err { OnlyMemory result }
{
    let count = view.node_count();
    for i in 0..count {
        push(nodes, view.node(i))?;
    }
    Ok(())
}

/// Copies the blocks into an empty vector.
fn copy_blocks(view: &View, blocks: &mut Vec<Block>) -> Result<(), DecodeError>
    requires counted { IsCounted (object_of view.now) }
    requires empty { blocks.old.items ≡ [] }
    ensures copied { OnOk result (blocks.new.items ≡ (object_of view.now).blocks) }
    ensures err { OnlyMemory result }
{
    let count = view.counts().blocks;
    for i in 0..count {
        push(blocks, view.block(i))?;
    }
    Ok(())
}

/// Copies the instructions into an empty vector.
fn copy_instrs(view: &View, instrs: &mut Vec<Instr>) -> Result<(), DecodeError>
    requires counted { IsCounted (object_of view.now) }
    requires empty { instrs.old.items ≡ [] }
    ensures copied { OnOk result (instrs.new.items ≡ (object_of view.now).instrs) }
    ensures err { OnlyMemory result }
{
    let count = view.counts().instrs;
    for i in 0..count {
        push(instrs, view.instr(i))?;
    }
    Ok(())
}

/// Copies the substitution rows into an empty vector.
fn copy_substs(view: &View, substs: &mut Vec<u32>) -> Result<(), DecodeError>
    requires counted { IsCounted (object_of view.now) }
    requires empty { substs.old.items ≡ [] }
    ensures copied { OnOk result (substs.new.items ≡ (object_of view.now).substs) }
    ensures err { OnlyMemory result }
{
    let count = view.counts().substs;
    for i in 0..count {
        push(substs, view.subst_row(i))?;
    }
    Ok(())
}

/// Copies a cell with its name.
fn copy_cell(alloc: Global, view: &View, k: u32) -> Result<Cell, DecodeError>
    requires { k < length (object_of view.now).cells }
    ensures copied { IfOk result (λ c. slice_get (object_of view.now).cells k ≡ Some c) }
    ensures err { OnlyMemory result }
{
    let head = view.cell(k);
    let name = copy(alloc, view.name_of(k))?;
    Ok(Cell {
        name,
        basic: head.basic,
        init: head.init,
    })
}

/// Copies the register rows of a type into an empty vector.
fn copy_regs(view: &View, t: u32, count: u32, regs: &mut Vec<RegType>) -> Result<(), DecodeError>
    requires there { t < length (object_of view.now).types }
    requires count { count ≡ length (reg_rows (object_of view.now) t) }
    requires empty { regs.old.items ≡ [] }
    ensures copied { OnOk result (regs.new.items ≡ reg_rows (object_of view.now) t) }
    ensures err { OnlyMemory result }
{
    for i in 0..count {
        push(regs, view.reg_row(t, i))?;
    }
    Ok(())
}

/// Copies the queue rows of a type into an empty vector.
fn copy_queue(
    view: &View,
    t: u32,
    count: u32,
    queue: &mut Vec<(u32, u32)>,
) -> Result<(), DecodeError>
    requires there { t < length (object_of view.now).types }
    requires count { count ≡ length (queue_rows (object_of view.now) t) }
    requires empty { queue.old.items ≡ [] }
    ensures copied { OnOk result (queue.new.items ≡ queue_rows (object_of view.now) t) }
    ensures err { OnlyMemory result }
{
    for i in 0..count {
        push(queue, view.queue_row(t, i))?;
    }
    Ok(())
}

/// Copies a code type with its rows.
fn copy_type(alloc: Global, view: &View, t: u32) -> Result<CodeType, DecodeError>
    requires counted { IsCounted (object_of view.now) }
    requires there { t < length (object_of view.now).types }
    ensures copied { IfOk result (λ c. slice_get (object_of view.now).types t ≡ Some c) }
    ensures err { OnlyMemory result }
{
    let head = view.code_type(t);
    let mut regs = reserve(alloc, head.regs)?;
    copy_regs(view, t, head.regs, &mut regs)?;
    let mut queue = reserve(alloc, head.queue)?;
    copy_queue(view, t, head.queue, &mut queue)?;
    Ok(CodeType {
        ints: head.ints,
        regs: Table::from_vec(regs),
        queue: Table::from_vec(queue),
        memory: head.memory,
    })
}

/// Copies the cells into an empty vector.
fn copy_cells(alloc: Global, view: &View, cells: &mut Vec<Cell>) -> Result<(), DecodeError>
    requires counted { IsCounted (object_of view.now) }
    requires empty { cells.old.items ≡ [] }
    ensures copied { OnOk result (cells.new.items ≡ (object_of view.now).cells) }
    ensures err { OnlyMemory result }
{
    let count = view.counts().cells;
    for i in 0..count {
        let cell = copy_cell(alloc, view, i)?;
        push(cells, cell)?;
    }
    Ok(())
}

/// Copies the types into an empty vector.
fn copy_types(alloc: Global, view: &View, types: &mut Vec<CodeType>) -> Result<(), DecodeError>
    requires counted { IsCounted (object_of view.now) }
    requires empty { types.old.items ≡ [] }
    ensures copied { OnOk result (types.new.items ≡ (object_of view.now).types) }
    ensures err { OnlyMemory result }
{
    let count = view.counts().types;
    for i in 0..count {
        let code_type = copy_type(alloc, view, i)?;
        push(types, code_type)?;
    }
    Ok(())
}

/// Copies the object of a view.
pub(crate) fn copy_object(alloc: Global, view: &View) -> Result<Object, DecodeError>
    requires { IsCounted (object_of view.now) }
    ensures copied { IfOk result (λ o. o ≡ object_of view.now) }
    ensures err { OnlyMemory result }
{
    let counts = view.counts();
    let mut cells = reserve(alloc, counts.cells)?;
    copy_cells(alloc, view, &mut cells)?;
    let mut nodes = reserve(alloc, view.node_count())?;
    copy_nodes(view, &mut nodes)?;
    let mut types = reserve(alloc, counts.types)?;
    copy_types(alloc, view, &mut types)?;
    let mut blocks = reserve(alloc, counts.blocks)?;
    copy_blocks(view, &mut blocks)?;
    let mut instrs = reserve(alloc, counts.instrs)?;
    copy_instrs(view, &mut instrs)?;
    let mut substs = reserve(alloc, counts.substs)?;
    copy_substs(view, &mut substs)?;
    Ok(Object {
        cells: Table::from_vec(cells),
        nodes: Table::from_vec(nodes),
        types: Table::from_vec(types),
        blocks: Table::from_vec(blocks),
        instrs: Table::from_vec(instrs),
        substs: Table::from_vec(substs),
        entry: view.entry(),
    })
}
