//! Replaces each name by what it refers to.
ghost use Rattle.std.specs.Prelude.{◌≡◌, ℕ, None, Some, Ok, IfOk, IfErr, OnOk};
ghost use Rattle.ft_syntax.specs.Plain.{none, plain_expression, plain_statement, plain_list};
ghost use Rattle.ft_syntax.specs.Syntax.{named};
ghost use Rattle.ft_syntax.specs.Size.{expression_nodes, statement_nodes};
ghost use Rattle.ft_scope.specs.Scope.{found, renamed_expression, renamed, first_of, bare_misuse, index_misuse, misused_expression, misused};
ghost use Rattle.ft_scope.specs.Size.{same_slot, ExpressionFits, StatementsFit};
ghost use Rattle.ft_scope.specs.Held.{look};
ghost use Rattle.ft_scope.specs.Renames.{Fails, AllFit, AnyFits};

use crate::misuse::{bare_misuse, first_of, index_misuse};
use crate::names::Names;
use crate::slot::Slot;
use ft_syntax::{Expr, SourceError, Spot, Stmt};
use std::alloc::Global;

/// What a name refers to.
fn slot_of(names: &Names<'_>, name: Spot<'_>) -> Result<Slot, SourceError>
    ensures is { IfOk result (λ s. look names.now name.entry.text.now ≡ Some s) }
    ensures ok { IfOk result (λ s. found name.entry.at (look names.now name.entry.text.now) ≡ Ok s) }
    ensures fits { IfOk result (λ s. (c v : ℕ) → AllFit (look names.now) c v → AnyFits c v s) }
    ensures err { IfErr result (λ e. Fails e (found name.entry.at (look names.now name.entry.text.now))) }
{
    match names.find(name.text) {
        Some(slot) => Ok(slot),
        None => Err(SourceError::Unknown { at: name.at }),
    }
}

/// What a name without an index refers to. The place of the first misused name is noted.
fn bare_slot(
    names: &Names<'_>,
    name: Spot<'_>,
    misuse: &mut Option<usize>,
) -> Result<Slot, SourceError>
    ensures ok { IfOk result (λ s. found name.entry.at (look names.now name.entry.text.now) ≡ Ok s) }
    ensures fits { IfOk result (λ s. (c v : ℕ) → AllFit (look names.now) c v → AnyFits c v s) }
    ensures misuse { OnOk result (misuse.new ≡ first_of misuse.old (bare_misuse name.entry.at (look names.now name.entry.text.now))) }
    ensures err { IfErr result (λ e. Fails e (found name.entry.at (look names.now name.entry.text.now))) }
{
    let slot = slot_of(names, name)?;
    *misuse = first_of(*misuse, bare_misuse(slot, name.at));
    Ok(slot)
}

/// What a name with an index refers to. The place of the first misused name is noted.
fn indexed_slot(
    names: &Names<'_>,
    name: Spot<'_>,
    misuse: &mut Option<usize>,
) -> Result<Slot, SourceError>
    ensures ok { IfOk result (λ s. found name.entry.at (look names.now name.entry.text.now) ≡ Ok s) }
    ensures fits { IfOk result (λ s. (c v : ℕ) → AllFit (look names.now) c v → AnyFits c v s) }
    ensures misuse { OnOk result (misuse.new ≡ first_of misuse.old (index_misuse name.entry.at (look names.now name.entry.text.now))) }
    ensures err { IfErr result (λ e. Fails e (found name.entry.at (look names.now name.entry.text.now))) }
{
    let slot = slot_of(names, name)?;
    *misuse = first_of(*misuse, index_misuse(slot, name.at));
    Ok(slot)
}

/// Replaces the names of an expression, and notes the place of the first misused name.
#[tactic(auto, using(crate::proofs::MisusedNames::uses, crate::proofs::MisusedNames::first_three, crate::proofs::MisusedNames::first_end))]
fn rename_expression(
    alloc: Global,
    names: &Names<'_>,
    e: Expr<Spot<'_>>,
    misuse: &mut Option<usize>,
) -> Result<Expr<Slot>, SourceError>
    ensures ok { IfOk result (λ x. renamed_expression (look names.now) (plain_expression named e.entry) ≡ Ok (plain_expression same_slot x)) }
    ensures fits { IfOk result (λ x. (c v : ℕ) → AllFit (look names.now) c v → misused_expression (look names.now) (plain_expression named e.entry) ≡ None → ExpressionFits c v (plain_expression same_slot x)) }
    ensures misuse { OnOk result (misuse.new ≡ first_of misuse.old (misused_expression (look names.now) (plain_expression named e.entry))) }
    ensures nodes { IfOk result (λ x. expression_nodes (plain_expression same_slot x) ≡ expression_nodes (plain_expression named e.entry)) }
    ensures err { IfErr result (λ f. Fails f (renamed_expression (look names.now) (plain_expression named e.entry))) }
{
    match e {
        Expr::Literal(word) => Ok(Expr::Literal(word)),
        Expr::Name(name) => Ok(Expr::Name(bare_slot(names, name, misuse)?)),
        Expr::At { name, index } => {
            let name = indexed_slot(names, name, misuse)?;
            let index = rename_expression(alloc, names, Box::into_inner(index), misuse)?;
            let Ok(index) = Box::new(alloc, index) else {
                return Err(SourceError::NoMemory);
            };
            Ok(Expr::At { name, index })
        }
        Expr::Op { op, a, b } => {
            let a = rename_expression(alloc, names, Box::into_inner(a), misuse)?;
            let b = rename_expression(alloc, names, Box::into_inner(b), misuse)?;
            let Ok(a) = Box::new(alloc, a) else {
                return Err(SourceError::NoMemory);
            };
            let Ok(b) = Box::new(alloc, b) else {
                return Err(SourceError::NoMemory);
            };
            Ok(Expr::Op { op, a, b })
        }
    }
}

/// Replaces the names of statements, and notes the place of the first misused name.
#[cycle(renaming)]
pub fn rename_statements(
    alloc: Global,
    names: &Names<'_>,
    all: Vec<Stmt<Spot<'_>>>,
    misuse: &mut Option<usize>,
) -> Result<Vec<Stmt<Slot>>, SourceError>
    ensures ok { IfOk result (λ v. renamed (look names.now) (plain_list named all.entry.items) ≡ Ok (plain_list same_slot v.items)) }
    ensures fits { IfOk result (λ x. (c v : ℕ) → AllFit (look names.now) c v → misused (look names.now) (plain_list named all.entry.items) ≡ None → StatementsFit c v (plain_list same_slot x.items)) }
    ensures misuse { OnOk result (misuse.new ≡ first_of misuse.old (misused (look names.now) (plain_list named all.entry.items))) }
    ensures nodes { IfOk result (λ v. statement_nodes (plain_list same_slot v.items) ≡ statement_nodes (plain_list named all.entry.items)) }
    ensures err { IfErr result (λ f. Fails f (renamed (look names.now) (plain_list named all.entry.items))) }
{
    let Ok(mut out) = Vec::with_capacity(alloc, all.len()) else {
        return Err(SourceError::NoMemory);
    };
    for s in all {
        let s = match rename_statement(alloc, names, s, misuse) {
            Ok(s) => s,
            Err(e) => return Err(e),
        };
        let Ok(()) = out.push(s) else {
            return Err(SourceError::NoMemory);
        };
    }
    Ok(out)
}

/// Replaces the names of a statement, and notes the place of the first misused name.
#[tactic(auto, using(crate::proofs::Forms::forms, crate::proofs::MisusedNames::uses, crate::proofs::MisusedNames::first_three, crate::proofs::MisusedNames::first_end))]
#[cycle(renaming)]
fn rename_statement(
    alloc: Global,
    names: &Names<'_>,
    s: Stmt<Spot<'_>>,
    misuse: &mut Option<usize>,
) -> Result<Stmt<Slot>, SourceError>
    ensures ok { IfOk result (λ x. renamed (look names.now) (plain_statement named s.entry none) ≡ Ok (plain_statement same_slot x none)) }
    ensures fits { IfOk result (λ x. (c v : ℕ) → AllFit (look names.now) c v → misused (look names.now) (plain_statement named s.entry none) ≡ None → StatementsFit c v (plain_statement same_slot x none)) }
    ensures misuse { OnOk result (misuse.new ≡ first_of misuse.old (misused (look names.now) (plain_statement named s.entry none))) }
    ensures nodes { IfOk result (λ x. statement_nodes (plain_statement same_slot x none) ≡ statement_nodes (plain_statement named s.entry none)) }
    ensures err { IfErr result (λ f. Fails f (renamed (look names.now) (plain_statement named s.entry none))) }
{
    match s {
        Stmt::Assign { to, value } => {
            let to = bare_slot(names, to, misuse)?;
            let value = rename_expression(alloc, names, value, misuse)?;
            Ok(Stmt::Assign { to, value })
        }
        Stmt::AssignAt { to, index, value } => {
            let to = indexed_slot(names, to, misuse)?;
            let index = rename_expression(alloc, names, index, misuse)?;
            let value = rename_expression(alloc, names, value, misuse)?;
            Ok(Stmt::AssignAt { to, index, value })
        }
        Stmt::While { test, body } => {
            let test = rename_expression(alloc, names, test, misuse)?;
            let body = rename_statements(alloc, names, body, misuse)?;
            Ok(Stmt::While { test, body })
        }
        Stmt::If { test, yes, no } => {
            let test = rename_expression(alloc, names, test, misuse)?;
            let yes = rename_statements(alloc, names, yes, misuse)?;
            let no = rename_statements(alloc, names, no, misuse)?;
            Ok(Stmt::If { test, yes, no })
        }
    }
}
