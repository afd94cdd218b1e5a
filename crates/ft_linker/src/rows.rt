//! Appends a module's tables, with raised numbers, to those of the modules before it.
ghost use Rattle.std.specs.Prelude.{◌≡◌, ◌<◌, ◌+◌, ◌^◌, ◌++◌, IfOk, OnOk, map, ℕ};
ghost use Rattle.ft_modules.specs.Linked.{raised_block, raised_instr, raised_node, raised_pair, raised_row, raised_type};
ghost use Rattle.ft_linker.specs.Raises.{CanRaise, CanRaiseBlock, CanRaiseNode, CanRaisePair, CanRaiseRow, CanRaiseType, Each};

use crate::raising::{raise_block, raise_instr, raise_node, raise_pair, raise_row};
use ft_isa::Instr;
use ft_modules::Before;
use ft_static::Node;
use ft_types::{Block, CodeType, RegType, Table};
use std::alloc::{AllocError, Global};

/// Appends the nodes.
pub fn lay_nodes(laid: &mut Vec<Node>, k: u32, nodes: &Table<Node>) -> Result<(), AllocError>
    requires { Each (CanRaiseNode k) nodes.now }
    ensures { OnOk result (laid.new.items ≡ laid.old.items ++ map (raised_node k) nodes.now) }
{
    for n in 0..nodes.len() {
        let node = *nodes.at(n);
        laid.push(raise_node(k, node))?;
    }
    Ok(())
}

/// The register rows of a code type, raised.
fn raise_rows(alloc: Global, k: u32, rows: &Table<RegType>) -> Result<Vec<RegType>, AllocError>
    requires { Each (CanRaiseRow k) rows.now }
    ensures { IfOk result (λ v. v.items ≡ map (raised_row k) rows.now) }
{
    let mut raised = Vec::with_capacity(alloc, rows.len())?;
    for n in 0..rows.len() {
        let row = *rows.at(n);
        raised.push(raise_row(k, row))?;
    }
    Ok(raised)
}

/// The queue rows of a code type, raised.
fn raise_pairs(
    alloc: Global,
    k: u32,
    pairs: &Table<(u32, u32)>,
) -> Result<Vec<(u32, u32)>, AllocError>
    requires { Each (CanRaisePair k) pairs.now }
    ensures { IfOk result (λ v. v.items ≡ map (raised_pair k) pairs.now) }
{
    let mut raised = Vec::with_capacity(alloc, pairs.len())?;
    for n in 0..pairs.len() {
        let pair = *pairs.at(n);
        raised.push(raise_pair(k, pair))?;
    }
    Ok(raised)
}

/// A code type, raised.
fn raise_type(alloc: Global, k: u32, code_type: &CodeType) -> Result<CodeType, AllocError>
    requires { CanRaiseType k code_type.now }
    ensures { IfOk result (λ t. t ≡ raised_type k code_type.now) }
{
    let regs = raise_rows(alloc, k, &code_type.regs)?;
    let queue = raise_pairs(alloc, k, &code_type.queue)?;
    Ok(CodeType {
        ints: code_type.ints,
        regs: Table::from_vec(regs),
        queue: Table::from_vec(queue),
        memory: k + code_type.memory,
    })
}

/// Appends the code types.
pub fn lay_types(
    alloc: Global,
    laid: &mut Vec<CodeType>,
    k: u32,
    types: &Table<CodeType>,
) -> Result<(), AllocError>
    requires { Each (CanRaiseType k) types.now }
    ensures { OnOk result (laid.new.items ≡ laid.old.items ++ map (raised_type k) types.now) }
{
    for n in 0..types.len() {
        let raised = raise_type(alloc, k, types.at(n))?;
        laid.push(raised)?;
    }
    Ok(())
}

/// Appends the blocks.
pub fn lay_blocks(laid: &mut Vec<Block>, k: Before, blocks: &Table<Block>) -> Result<(), AllocError>
    requires { Each (CanRaiseBlock k) blocks.now }
    ensures { OnOk result (laid.new.items ≡ laid.old.items ++ map (raised_block k) blocks.now) }
{
    for n in 0..blocks.len() {
        let block = *blocks.at(n);
        laid.push(raise_block(k, block))?;
    }
    Ok(())
}

/// Appends the instructions, before moves are changed.
pub fn lay_instrs(laid: &mut Vec<Instr>, k: Before, instrs: &Table<Instr>) -> Result<(), AllocError>
    requires { Each (CanRaise k) instrs.now }
    ensures { OnOk result (laid.new.items ≡ laid.old.items ++ map (raised_instr k) instrs.now) }
{
    for n in 0..instrs.len() {
        let instr = *instrs.at(n);
        laid.push(raise_instr(k, instr))?;
    }
    Ok(())
}

/// Appends the substitution rows.
pub fn lay_substs(laid: &mut Vec<u32>, k: u32, substs: &Table<u32>) -> Result<(), AllocError>
    requires { Each (λ n. k + n < 2 ^ 32) substs.now }
    ensures { OnOk result (laid.new.items ≡ laid.old.items ++ map (λ n. k + n) substs.now) }
{
    for n in 0..substs.len() {
        let row = *substs.at(n);
        laid.push(k + row)?;
    }
    Ok(())
}
