//! Nodes, each after the nodes that it refers to.
//!
//! A large object is mostly nodes, so their checks are inlined. The last check of a record also ends in `?`, like those
//! before it, so that each check is one comparison and one branch.
ghost use Rattle.std.specs.Prelude.{◌≡◌, ◌+◌, ◌<◌, ◌≤◌, ◌^◌};
ghost use Rattle.ft_view.specs.Found.{Finds};
ghost use Rattle.ft_format.specs.Fields.{node_numbers};
ghost use Rattle.ft_format.specs.Rules.{◌next◌, zero_broken, count_broken};
ghost use Rattle.ft_format.specs.NodeRecords.{variable_broken, pair_broken, memory_broken, upd_broken, rem_broken, parts_broken, node_broken, shape_of, node_of};

use crate::node_records::NodeRecords;
use crate::rules::{check, check_count, check_named, check_op, check_some, check_zero};
use ft_format::{NodeRow, ObjectError, Version};
use ft_isa::Op;
use ft_static::{Node, Shape};
use ft_types::joined;

/// Checks a variable, whose number is below the scope.
fn check_variable(at: usize, row: NodeRow) -> Result<(), ObjectError>
    requires { at ≤ 2 ^ 27 }
    ensures { Finds result (variable_broken at row.scope row.a row.b row.c) }
{
    check(
        row.a < u32::from(row.scope),
        ObjectError::Index { at: at + 4 },
    )?;
    check_zero(at + 8, row.b)?;
    check_zero(at + 12, row.c)?;
    Ok(())
}

/// Checks an operation on two integers, or the word of a memory at an address.
#[inline(always)]
fn check_pair(
    earlier: &NodeRecords,
    memory: bool,
    at: usize,
    row: NodeRow,
) -> Result<(), ObjectError>
    requires { at ≤ 2 ^ 27 }
    ensures { Finds result (pair_broken earlier.now memory at row.scope row.a row.b row.c) }
{
    check_named(earlier, row.scope, memory, at + 4, row.a)?;
    check_named(earlier, row.scope, false, at + 8, row.b)?;
    check_zero(at + 12, row.c)?;
    Ok(())
}

/// Checks the memory variable.
fn check_memory(at: usize, row: NodeRow) -> Result<(), ObjectError>
    requires { at ≤ 2 ^ 27 }
    ensures { Finds result (memory_broken at row.a row.b row.c) }
{
    check_zero(at + 4, row.a)?;
    check_zero(at + 8, row.b)?;
    check_zero(at + 12, row.c)?;
    Ok(())
}

/// Checks a memory with another value at one address.
fn check_upd(earlier: &NodeRecords, at: usize, row: NodeRow) -> Result<(), ObjectError>
    requires { at ≤ 2 ^ 27 }
    ensures { Finds result (upd_broken earlier.now at row.scope row.a row.b row.c) }
{
    check_named(earlier, row.scope, true, at + 4, row.a)?;
    check_named(earlier, row.scope, false, at + 8, row.b)?;
    check_named(earlier, row.scope, false, at + 12, row.c)?;
    Ok(())
}

/// Checks the remainder of an integer divided by a length.
fn check_rem(earlier: &NodeRecords, at: usize, row: NodeRow) -> Result<(), ObjectError>
    requires { at ≤ 2 ^ 27 }
    ensures { Finds result (rem_broken earlier.now at row.scope row.a row.b row.c) }
{
    check_named(earlier, row.scope, false, at + 4, row.a)?;
    check_some(1024, at + 8, row.b)?;
    check_zero(at + 12, row.c)?;
    Ok(())
}

/// Checks the parts a, b and c of a node, by its kind; any kind above 5 is taken as a remainder.
#[inline(always)]
fn check_parts(earlier: &NodeRecords, at: usize, row: NodeRow) -> Result<(), ObjectError>
    requires { at ≤ 2 ^ 27 }
    ensures { Finds result (parts_broken earlier.now at row.kind row.scope row.a row.b row.c) }
{
    match row.kind {
        0 => {
            check_zero(at + 4, row.a)?;
            Ok(())
        }
        1 => check_variable(at, row),
        2 => check_pair(earlier, false, at, row),
        3 => check_pair(earlier, true, at, row),
        4 => check_memory(at, row),
        5 => check_upd(earlier, at, row),
        _ => check_rem(earlier, at, row),
    }
}

/// Checks a node's record from its scope on.
#[inline(always)]
fn check_rest(earlier: &NodeRecords, at: usize, row: NodeRow) -> Result<(), ObjectError>
    requires { at ≤ 2 ^ 27 }
    ensures { Finds result (count_broken 128 (at + 2) row.scope next zero_broken (at + 3) row.pad next parts_broken earlier.now at row.kind row.scope row.a row.b row.c) }
{
    check_count(128, at + 2, u32::from(row.scope))?;
    check_zero(at + 3, u32::from(row.pad))?;
    check_parts(earlier, at, row)
}

/// Checks the record of a node, given the earlier ones: `Kind` for a code without a meaning or a node of the wrong
/// sort, `Pad` for an unused field that is not zero, `Count` for the scope or a length, `Index` for a node or variable
/// that may not be used.
#[inline(always)]
pub fn check_node(
    version: Version,
    earlier: &NodeRecords,
    at: usize,
    row: NodeRow,
) -> Result<(), ObjectError>
    requires { at ≤ 2 ^ 27 }
    ensures { Finds result (node_broken version earlier.now at (node_numbers row)) }
{
    if row.kind == 2 {
        check_op(version, at + 1, u32::from(row.op))?;
        check_rest(earlier, at, row)
    } else {
        check(
            row.kind <= version.last_node_kind(),
            ObjectError::Kind { at },
        )?;
        check_zero(at + 1, u32::from(row.op))?;
        check_rest(earlier, at, row)
    }
}

/// The shape that a record encodes, by its kind; any kind above 5 is taken as a remainder.
fn shape(row: NodeRow) -> Shape
    requires { row.kind ≡ 1 → row.a < 256 }
    ensures { result ≡ shape_of row.kind row.op row.a row.b row.c }
{
    match row.kind {
        0 => Shape::Word(joined(row.b, row.c)),
        1 => Shape::Var(row.a as u8),
        2 => Shape::Op {
            op: Op::of_code(u32::from(row.op)),
            a: row.a,
            b: row.b,
        },
        3 => Shape::Sel {
            memory: row.a,
            at: row.b,
        },
        4 => Shape::Memory,
        5 => Shape::Upd {
            memory: row.a,
            at: row.b,
            value: row.c,
        },
        _ => Shape::Rem {
            a: row.a,
            length: row.b,
        },
    }
}

/// The node that a valid record encodes.
pub fn read_node(row: NodeRow) -> Node
    requires { row.kind ≡ 1 → row.a < 256 }
    ensures { result ≡ node_of (node_numbers row) }
{
    let shape = shape(row);
    Node {
        scope: row.scope,
        shape,
    }
}
