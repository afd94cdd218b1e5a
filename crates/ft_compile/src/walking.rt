//! Walks along the steps of a flow and notes the nodes and substitutions.
ghost use Rattle.std.specs.Prelude.{◌≡◌, ◌≤◌, ◌<◌, ◌+◌, ℕ, length, IfOk, OnOk};
ghost use Rattle.std.specs.List.{All};
ghost use Rattle.ft_lower.specs.Cutting.{blocks_of};
ghost use Rattle.ft_lower.specs.Size.{PairsBelow, blocks_size, pairs_of, row_size, size};
ghost use Rattle.ft_compile.specs.Emitted.{noted};
ghost use Rattle.ft_compile.specs.Noted.{row_noted, step_noted, with_address_nodes};
ghost use Rattle.ft_compile.specs.Viewed.{HasRoom, noted_of};

use crate::notes::Notes;
use ft_isa::{FIRST_CELL, Op};
use ft_lower::{Flow, Step3, next_block};
use ft_static::Shape;
use std::alloc::{AllocError, Global};

/// Notes a copy of pair `q` to pair `p`.
fn note_copy(notes: &mut Notes, scope: u8, p: u8, q: u8) -> Result<(), AllocError>
    requires p { p < 32 }
    requires q { q < 32 }
    requires room { length notes.old.nodes.items + 2 ≤ 1048576 }
    ensures { OnOk result ((vars : ℕ) → noted_of notes.new ≡ step_noted vars scope (noted_of notes.old) (Step3.Copy p q)) }
{
    let copied = notes.pairs[q as usize];
    let zero = notes.put(scope, Shape::Word(0))?;
    notes.set_pair(
        scope,
        p,
        Shape::Op {
            op: Op::Add,
            a: copied,
            b: zero,
        },
    )?;
    Ok(())
}

/// Notes an operation on the pairs `q` and `s`, with its result in pair `p`.
fn note_operation(
    notes: &mut Notes,
    scope: u8,
    op: Op,
    p: u8,
    q: u8,
    s: u8,
) -> Result<(), AllocError>
    requires p { p < 32 }
    requires q { q < 32 }
    requires s { s < 32 }
    requires room { length notes.old.nodes.items + 2 ≤ 1048576 }
    ensures { OnOk result ((vars : ℕ) → noted_of notes.new ≡ step_noted vars scope (noted_of notes.old) (Step3.Op op p q s)) }
{
    let a = notes.pairs[q as usize];
    let b = notes.pairs[s as usize];
    notes.set_pair(scope, p, Shape::Op { op, a, b })?;
    Ok(())
}

/// Notes a load of a cell into pair `p`.
fn note_load(notes: &mut Notes, scope: u8, p: u8, cell: u32) -> Result<(), AllocError>
    requires p { p < 32 }
    requires room { length notes.old.nodes.items + 2 ≤ 1048576 }
    ensures { OnOk result ((vars : ℕ) → noted_of notes.new ≡ step_noted vars scope (noted_of notes.old) (Step3.Load p cell)) }
{
    let memory = notes.memory;
    let at = notes.put(scope, Shape::Word(FIRST_CELL + u64::from(cell)))?;
    notes.set_pair(scope, p, Shape::Sel { memory, at })?;
    Ok(())
}

/// Notes a store of pair `q` to a cell.
fn note_store(notes: &mut Notes, scope: u8, cell: u32, q: u8) -> Result<(), AllocError>
    requires q { q < 32 }
    requires room { length notes.old.nodes.items + 2 ≤ 1048576 }
    ensures { OnOk result ((vars spare : ℕ) → noted_of notes.new ≡ step_noted vars scope (noted_of notes.old) (Step3.Store cell q spare)) }
{
    let memory = notes.memory;
    let value = notes.pairs[q as usize];
    let at = notes.put(scope, Shape::Word(FIRST_CELL + u64::from(cell)))?;
    notes.set_memory(scope, Shape::Upd { memory, at, value })?;
    Ok(())
}

/// Notes the address of the array cell that the word of pair `q` selects. Returns the node of the address.
fn note_address(
    notes: &mut Notes,
    scope: u8,
    first: u32,
    count: u32,
    q: u8,
) -> Result<u32, AllocError>
    requires q { q < 32 }
    requires room { length notes.old.nodes.items + 3 ≤ 1048576 }
    ensures number { IfOk result (λ n. n ≡ length notes.old.nodes.items + 2) }
    ensures noted { OnOk result (noted_of notes.new ≡ with_address_nodes scope first count q (noted_of notes.old)) }
{
    let word = notes.pairs[q as usize];
    let start = notes.put(scope, Shape::Word(FIRST_CELL + u64::from(first)))?;
    let place = notes.put(
        scope,
        Shape::Rem {
            a: word,
            length: count,
        },
    )?;
    let address = notes.put(
        scope,
        Shape::Op {
            op: Op::Add,
            a: start,
            b: place,
        },
    )?;
    Ok(address)
}

/// Notes a load, into pair `p`, of the array cell that pair `q` selects.
fn note_load_at(
    notes: &mut Notes,
    scope: u8,
    p: u8,
    q: u8,
    first: u32,
    count: u32,
) -> Result<(), AllocError>
    requires p { p < 32 }
    requires q { q < 32 }
    requires room { length notes.old.nodes.items + 4 ≤ 1048576 }
    ensures { OnOk result ((vars : ℕ) → noted_of notes.new ≡ step_noted vars scope (noted_of notes.old) (Step3.LoadAt p q first count)) }
{
    let memory = notes.memory;
    let at = note_address(notes, scope, first, count, q)?;
    notes.set_pair(scope, p, Shape::Sel { memory, at })?;
    Ok(())
}

/// Notes a store of pair `q` into the array cell that pair `i` selects.
fn note_store_at(
    notes: &mut Notes,
    scope: u8,
    first: u32,
    count: u32,
    i: u8,
    q: u8,
) -> Result<(), AllocError>
    requires i { i < 32 }
    requires q { q < 32 }
    requires room { length notes.old.nodes.items + 4 ≤ 1048576 }
    ensures { OnOk result ((vars spare : ℕ) → noted_of notes.new ≡ step_noted vars scope (noted_of notes.old) (Step3.StoreAt first count i q spare)) }
{
    let memory = notes.memory;
    let value = notes.pairs[q as usize];
    let at = note_address(notes, scope, first, count, i)?;
    notes.set_memory(scope, Shape::Upd { memory, at, value })?;
    Ok(())
}

/// Notes a step of a block with this scope, in a flow with this many variables.
fn note_step(notes: &mut Notes, vars: u8, scope: u8, step: Step3) -> Result<(), AllocError>
    requires vars { vars ≤ 32 }
    requires pairs { All (λ p. p < 32) (pairs_of step) }
    requires room { HasRoom (noted_of notes.old) (size step) }
    ensures { OnOk result (noted_of notes.new ≡ step_noted vars scope (noted_of notes.old) step) }
{
    match step {
        Step3::Put { p, word } => notes.set_pair(scope, p, Shape::Word(word))?,
        Step3::Copy { p, q } => note_copy(notes, scope, p, q)?,
        Step3::Op { op, p, q, s } => note_operation(notes, scope, op, p, q, s)?,
        Step3::Load { p, cell } => note_load(notes, scope, p, cell)?,
        Step3::Store { cell, q, .. } => note_store(notes, scope, cell, q)?,
        Step3::LoadAt {
            p,
            q,
            first,
            length,
        } => note_load_at(notes, scope, p, q, first, length)?,
        Step3::StoreAt {
            first,
            length,
            i,
            q,
            ..
        } => note_store_at(notes, scope, first, length, i, q)?,
        Step3::Exit { .. } | Step3::Go { .. } => notes.jump(vars)?,
        Step3::Stop => {}
    }
    Ok(())
}

/// Notes the steps of a block with this scope.
fn note_row(notes: &mut Notes, vars: u8, scope: u8, steps: &[Step3]) -> Result<(), AllocError>
    requires vars { vars ≤ 32 }
    requires pairs { All (λ i. All (λ p. p < 32) (pairs_of i)) steps.now }
    requires room { HasRoom (noted_of notes.old) (row_size steps.now) }
    ensures { OnOk result (noted_of notes.new ≡ row_noted vars scope (noted_of notes.old) steps.now) }
{
    for step in steps {
        note_step(notes, vars, scope, *step)?;
    }
    Ok(())
}

/// Notes all blocks of a flow, whose code has this many instructions. The entry has no variables; the others have those
/// of the flow.
pub fn note_flow(alloc: Global, flow: &Flow, instrs: usize) -> Result<Notes, AllocError>
    requires vars { flow.now.vars ≤ 32 }
    requires pairs { PairsBelow 32 (blocks_of flow.now) }
    requires short { blocks_size (blocks_of flow.now) ≤ 65536 }
    ensures { IfOk result (λ n. noted_of n ≡ noted flow.now.vars (blocks_of flow.now)) }
{
    let mut notes = Notes::new(alloc, flow.vars, instrs)?;
    let mut scope = 0;
    let mut left = flow.steps.as_slice();
    while !left.is_empty() {
        let (block, rest) = next_block(left);
        notes.begin();
        note_row(&mut notes, flow.vars, scope, block)?;
        scope = flow.vars;
        left = rest;
    }
    Ok(notes)
}
