//! From a syntax tree to a program.
ghost use Rattle.std.specs.Prelude.{◌≡◌, ◌≢◌, ◌≤◌, Ok, Err, IfOk, IfErr, map};
ghost use Rattle.ft_syntax.specs.Size.{node_count};
ghost use Rattle.ft_syntax.specs.Syntax.{declared_list};
ghost use Rattle.ft_syntax.specs.TreeOf.{tree_from, tree_of};
ghost use Rattle.ft_syntax.specs.declared.source_error.SourceError.TheVariants as errors;
ghost use Rattle.ft_scope.specs.Scope.{cell_texts, cell_places};
ghost use Rattle.ft_scope.specs.Resolved.{resolved};
ghost use Rattle.ft_scope.specs.ProgramOf.{program_of};

use crate::limits::within_limits;
use crate::making::{first_wrong_length, made_cells};
use crate::names::declared_names;
use crate::prog::Prog;
use crate::renaming::rename_statements;
use ft_syntax::{Decl, SourceError, Spot, Stmt, Tree};
use std::alloc::Global;

/// The program with these declarations and statements.
fn resolve_parts<'a>(
    alloc: Global,
    decls: &[Decl<'a>],
    body: Vec<Stmt<Spot<'a>>>,
) -> Result<Prog<'a>, SourceError>
    requires { node_count decls.now body.items ≤ 1048576 }
    ensures ok { IfOk result (λ p. resolved (tree_from decls.now body.entry.items) ≡ Ok (program_of p)) }
    ensures slices { IfOk result (λ p. map (λ r. r.now) p.names.items ≡ cell_texts (declared_list decls.now)) }
    ensures places { IfOk result (λ p. p.places.items ≡ cell_places (declared_list decls.now)) }
    ensures err { IfErr result (λ e. e ≢ errors.NoMemory → resolved (tree_from decls.now body.entry.items) ≡ Err e) }
{
    let names = declared_names(alloc, decls)?;
    let mut misuse = None;
    let body = match rename_statements(alloc, &names, body, &mut misuse) {
        Ok(body) => body,
        Err(e) => return Err(e),
    };
    if let Some(at) = misuse {
        return Err(SourceError::Array { at });
    }
    if let Some(at) = first_wrong_length(decls) {
        return Err(SourceError::Length { at });
    }
    if let Err(e) = within_limits(names.cells, names.vars, &body) {
        return Err(e);
    }
    let cells = match made_cells(alloc, decls) {
        Ok(cells) => cells,
        Err(e) => return Err(e),
    };
    Ok(Prog {
        names: cells.names,
        places: cells.places,
        inits: cells.inits,
        vars: names.vars as u8,
        body,
    })
}

/// The program of a tree: each name is replaced by the cell, the array or the variable that it refers to.
///
/// For a tree without a program, the error is the first of these that applies: `Twice` at the first name that was
/// declared before; `Unknown` at the first name in a statement that is not declared; `Array` at the first name in a
/// statement that is an array's and has no index, or has one and is not an array's; `Length` at the first length of an
/// array that is 0 or above 1,024; `Cells`, `Registers` and `Weight` with the number that exceeds the limit. No cell is
/// made before these tests. The tree is consumed in every case.
pub fn resolve<'a>(alloc: Global, tree: Tree<'a>) -> Result<Prog<'a>, SourceError>
    ensures ok { IfOk result (λ p. resolved (tree_of tree.entry) ≡ Ok (program_of p)) }
    ensures slices { IfOk result (λ p. map (λ r. r.now) p.names.items ≡ cell_texts (tree_of tree.entry).decls) }
    ensures places { IfOk result (λ p. p.places.items ≡ cell_places (tree_of tree.entry).decls) }
    ensures err { IfErr result (λ e. e ≢ errors.NoMemory → resolved (tree_of tree.entry) ≡ Err e) }
{
    let Tree { decls, body } = tree;
    resolve_parts(alloc, &decls, body)
}
