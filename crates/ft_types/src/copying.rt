//! Copies of a program's object.
ghost use Rattle.std.specs.Prelude.{◌≡◌, ◌<◌, Some, IfOk, length, slice_get};
ghost use Rattle.ft_types.specs.Spellable.{IsSpellable};

use crate::rows::{copy_blocks, copy_instrs, copy_nodes, copy_queue, copy_regs, copy_substs};
use crate::{Cell, CodeType, Object, Program, Table};
use ft_isa::{Instr, NoMemory};
use std::alloc::{AllocError, Global};

/// Cell `k`.
fn copy_cell<P: Program>(alloc: Global, program: &P, k: u32) -> Result<Cell, AllocError>
    requires { k < length (P.object program.now).cells }
    ensures { IfOk result (λ c. slice_get (P.object program.now).cells k ≡ Some c) }
{
    let head = program.cell(k);
    let name = Vec::from_slice(alloc, program.name(k))?;
    Ok(Cell {
        name: Table::from_vec(name),
        basic: head.basic,
        init: head.init,
    })
}

/// The cells.
#[tactic(auto, using(crate::proofs::Copies::grown))]
fn list_cells<P: Program>(alloc: Global, program: &P) -> Result<Vec<Cell>, AllocError>
    requires { IsSpellable (P.object program.now) }
    ensures { IfOk result (λ v. v.items ≡ (P.object program.now).cells) }
{
    let count = program.counts().cells;
    let mut cells = Vec::with_capacity(alloc, count as usize)?;
    for k in 0..count {
        cells.push(copy_cell(alloc, program, k)?)?;
    }
    Ok(cells)
}

/// Code type `t`.
fn copy_type<P: Program>(alloc: Global, program: &P, t: u32) -> Result<CodeType, AllocError>
    requires spellable { IsSpellable (P.object program.now) }
    requires there { t < length (P.object program.now).types }
    ensures { IfOk result (λ c. slice_get (P.object program.now).types t ≡ Some c) }
{
    let head = program.code_type(t);
    let regs = copy_regs(alloc, program, t, head.regs)?;
    let queue = copy_queue(alloc, program, t, head.queue)?;
    Ok(CodeType {
        ints: head.ints,
        regs: Table::from_vec(regs),
        queue: Table::from_vec(queue),
        memory: head.memory,
    })
}

/// The code types.
#[tactic(auto, using(crate::proofs::Copies::grown))]
fn list_types<P: Program>(alloc: Global, program: &P) -> Result<Vec<CodeType>, AllocError>
    requires { IsSpellable (P.object program.now) }
    ensures { IfOk result (λ v. v.items ≡ (P.object program.now).types) }
{
    let count = program.counts().types;
    let mut types = Vec::with_capacity(alloc, count as usize)?;
    for t in 0..count {
        types.push(copy_type(alloc, program, t)?)?;
    }
    Ok(types)
}

/// The program's object with other instructions.
fn copy_parts<P: Program>(
    alloc: Global,
    program: &P,
    instrs: Table<Instr>,
) -> Result<Object, AllocError>
    requires { IsSpellable (P.object program.now) }
    ensures { IfOk result (λ s. s ≡ record (P.object program.now) { instrs = instrs }) }
{
    let cells = list_cells(alloc, program)?;
    let nodes = copy_nodes(alloc, program)?;
    let types = list_types(alloc, program)?;
    let blocks = copy_blocks(alloc, program)?;
    let substs = copy_substs(alloc, program)?;
    Ok(Object {
        cells: Table::from_vec(cells),
        nodes: Table::from_vec(nodes),
        types: Table::from_vec(types),
        blocks: Table::from_vec(blocks),
        instrs,
        substs: Table::from_vec(substs),
        entry: program.entry(),
    })
}

/// The program's object.
fn copy_whole<P: Program>(alloc: Global, program: &P) -> Result<Object, AllocError>
    requires { IsSpellable (P.object program.now) }
    ensures { IfOk result (λ s. s ≡ P.object program.now) }
{
    let instrs = copy_instrs(alloc, program)?;
    copy_parts(alloc, program, Table::from_vec(instrs))
}

/// A copy of a program's cells, in order.
pub fn copy_cells<P: Program>(alloc: Global, program: &P) -> Result<Table<Cell>, NoMemory>
    requires { IsSpellable (P.object program.now) }
    ensures { IfOk result (λ t. t ≡ (P.object program.now).cells) }
{
    match list_cells(alloc, program) {
        Ok(cells) => Ok(Table::from_vec(cells)),
        Err(_) => Err(NoMemory),
    }
}

/// A copy of the object that a program represents.
pub fn copy_object<P: Program>(alloc: Global, program: &P) -> Result<Object, NoMemory>
    requires { IsSpellable (P.object program.now) }
    ensures { IfOk result (λ s. s ≡ P.object program.now) }
{
    match copy_whole(alloc, program) {
        Ok(object) => Ok(object),
        Err(_) => Err(NoMemory),
    }
}

/// A copy of the object that a program represents, with these instructions in place of its own.
pub fn copy_with_instrs<P: Program>(
    alloc: Global,
    program: &P,
    instrs: Table<Instr>,
) -> Result<Object, NoMemory>
    requires { IsSpellable (P.object program.now) }
    ensures { IfOk result (λ s. s ≡ record (P.object program.now) { instrs = instrs }) }
{
    match copy_parts(alloc, program, instrs) {
        Ok(object) => Ok(object),
        Err(_) => Err(NoMemory),
    }
}
