//! The steps of expressions, statements and programs, in one row.
ghost use Rattle.std.specs.Prelude.{◌≡◌, ◌≢◌, ◌+◌, ◌<◌, ◌≤◌, ◌^◌, [], ◌∷◌, ◌++◌, OnOk, IfOk};
ghost use Rattle.ft_syntax.specs.Plain.{none, plain_expression, plain_statement, plain_list};
ghost use Rattle.ft_scope.specs.Size.{same_slot, need, most_need};
ghost use Rattle.ft_scope.specs.ProgramOf.{program_of};
ghost use Rattle.ft_lower.specs.declared.step3.Step3.TheVariants.{Exit};
ghost use Rattle.ft_lower.specs.Lowered.{block_count, body_counts, Tops, read, expression_steps, write, statement_steps, zeros, program_steps};

use crate::counting::count_blocks;
use crate::step3::Step3;
use ft_scope::{Prog, Slot};
use ft_syntax::{Expr, Stmt};
use std::alloc::{AllocError, Global};

/// Appends a step.
fn put(steps: &mut Vec<Step3>, step: Step3) -> Result<(), AllocError>
    ensures { OnOk result (steps.new.items ≡ steps.old.items ++ step ∷ []) }
{
    steps.push(step)?;
    Ok(())
}

/// The step that reads a cell or a variable into pair p; for an array, it reads the cell that the word of this pair
/// selects.
fn read_step(p: u8, from: Slot) -> Step3
    ensures { result ≡ read p from }
{
    match from {
        Slot::Var(q) => Step3::Copy { p, q },
        Slot::Cell(cell) => Step3::Load { p, cell },
        Slot::Run { first, length } => {
            let q = p;
            Step3::LoadAt {
                p,
                q,
                first,
                length,
            }
        }
    }
}

/// Appends the steps that leave an expression's word in pair p, using this pair and those above it.
fn emit_expression(steps: &mut Vec<Step3>, p: u8, e: &Expr<Slot>) -> Result<(), AllocError>
    requires pairs { p + need (plain_expression same_slot e.now) ≤ 32 }
    ensures { OnOk result (steps.new.items ≡ steps.old.items ++ expression_steps p (plain_expression same_slot e.now)) }
{
    match e {
        Expr::Literal(word) => put(steps, Step3::Put { p, word: *word }),
        Expr::Name(slot) => put(steps, read_step(p, *slot)),
        Expr::At { name, index } => {
            emit_expression(steps, p, index)?;
            put(steps, read_step(p, *name))
        }
        Expr::Op { op, a, b } => {
            emit_expression(steps, p, a)?;
            emit_expression(steps, p + 1, b)?;
            let (op, q, s) = (*op, p, p + 1);
            put(steps, Step3::Op { op, p, q, s })
        }
    }
}

/// The step that writes the pair after the spare to a cell or a variable; for an array, it writes the second pair after
/// the spare to the cell that the word of the first one selects.
fn write_step(spare: u8, to: Slot) -> Step3
    requires { spare < 254 }
    ensures { result ≡ write spare to }
{
    match to {
        Slot::Var(p) => Step3::Copy { p, q: spare + 1 },
        Slot::Cell(cell) => Step3::Store {
            cell,
            q: spare + 1,
            spare,
        },
        Slot::Run { first, length } => Step3::StoreAt {
            first,
            length,
            i: spare + 1,
            q: spare + 2,
            spare,
        },
    }
}

/// The step that goes to a block if the pair after the spare holds 0.
fn exit_step(spare: u8, to: u32) -> Step3
    requires { spare < 255 }
    ensures { result ≡ Exit (spare + 1) spare to }
{
    let q = spare + 1;
    Step3::Exit { q, spare, to }
}

/// Pops a count from the stack.
fn next_count(counts: &mut Vec<u32>) -> u32
    requires some { counts.old.items ≢ [] }
    ensures { counts.old.items ≡ counts.new.items ++ result ∷ [] }
{
    counts.pop().unwrap()
}

/// Appends the steps of statements that begin within a block, given that the variables' pairs are those below the
/// spare, and that the counts for their bodies are on top of the stack. Returns the block in which they end.
#[cycle(emit)]
fn emit_statements(
    steps: &mut Vec<Step3>,
    counts: &mut Vec<u32>,
    spare: u8,
    block: u32,
    all: &[Stmt<Slot>],
) -> Result<u32, AllocError>
    requires few { block + block_count (plain_list same_slot all.now) < 2 ^ 32 }
    requires pairs { spare + 1 + most_need (plain_list same_slot all.now) ≤ 32 }
    requires counted { Tops (body_counts (plain_list same_slot all.now)) counts.old.items }
    ensures steps { OnOk result (steps.new.items ≡ steps.old.items ++ statement_steps spare block (plain_list same_slot all.now)) }
    ensures counts { OnOk result (counts.old.items ≡ counts.new.items ++ body_counts (plain_list same_slot all.now)) }
    ensures block { IfOk result (λ c. c ≡ block + block_count (plain_list same_slot all.now)) }
{
    let mut at = block;
    for s in all {
        at = emit_statement(steps, counts, spare, at, s)?;
    }
    Ok(at)
}

/// Appends the steps of a statement that begins within a block, given that the variables' pairs are those below the
/// spare, and that the counts for its bodies are on top of the stack. Returns the block in which it ends.
#[tactic(auto, using(crate::proofs::Forms::forms))]
#[cycle(emit)]
fn emit_statement(
    steps: &mut Vec<Step3>,
    counts: &mut Vec<u32>,
    spare: u8,
    block: u32,
    s: &Stmt<Slot>,
) -> Result<u32, AllocError>
    requires few { block + block_count (plain_statement same_slot s.now none) < 2 ^ 32 }
    requires pairs { spare + 1 + most_need (plain_statement same_slot s.now none) ≤ 32 }
    requires counted { Tops (body_counts (plain_statement same_slot s.now none)) counts.old.items }
    ensures steps { OnOk result (steps.new.items ≡ steps.old.items ++ statement_steps spare block (plain_statement same_slot s.now none)) }
    ensures counts { OnOk result (counts.old.items ≡ counts.new.items ++ body_counts (plain_statement same_slot s.now none)) }
    ensures block { IfOk result (λ c. c ≡ block + block_count (plain_statement same_slot s.now none)) }
{
    match s {
        Stmt::Assign { to, value } => {
            emit_expression(steps, spare + 1, value)?;
            put(steps, write_step(spare, *to))?;
            Ok(block)
        }
        Stmt::AssignAt { to, index, value } => {
            emit_expression(steps, spare + 1, index)?;
            emit_expression(steps, spare + 2, value)?;
            put(steps, write_step(spare, *to))?;
            Ok(block)
        }
        Stmt::While { test, body } => {
            let head = block + 1;
            let out = head + 1 + next_count(counts);
            put(steps, Step3::Go { spare, to: head })?;
            emit_expression(steps, spare + 1, test)?;
            put(steps, exit_step(spare, out))?;
            emit_statements(steps, counts, spare, head, body)?;
            put(steps, Step3::Go { spare, to: head })?;
            Ok(out)
        }
        Stmt::If { test, yes, no } => {
            let other = block + 1 + next_count(counts);
            let out = other + 1 + next_count(counts);
            emit_expression(steps, spare + 1, test)?;
            put(steps, exit_step(spare, other))?;
            emit_statements(steps, counts, spare, block, yes)?;
            put(steps, Step3::Go { spare, to: out })?;
            emit_statements(steps, counts, spare, other, no)?;
            put(steps, Step3::Go { spare, to: out })?;
            Ok(out)
        }
    }
}

/// Appends steps that put 0 into each variable's pair.
fn emit_zeros(steps: &mut Vec<Step3>, vars: u8) -> Result<(), AllocError>
    ensures { OnOk result (steps.new.items ≡ steps.old.items ++ zeros vars) }
{
    for p in 0..vars {
        put(steps, Step3::Put { p, word: 0 })?;
    }
    Ok(())
}

/// The steps of a program.
pub fn emit_program(alloc: Global, prog: &Prog<'_>) -> Result<Vec<Step3>, AllocError>
    ensures { IfOk result (λ steps. steps.items ≡ program_steps (program_of prog.now)) }
{
    let mut counts = Vec::new(alloc);
    count_blocks(&mut counts, &prog.body)?;
    let mut steps = Vec::new(alloc);
    emit_zeros(&mut steps, prog.vars)?;
    emit_statements(&mut steps, &mut counts, prog.vars, 0, &prog.body)?;
    put(&mut steps, Step3::Stop)?;
    Ok(steps)
}
