//! The parts of a program that are lists of plain rows.
ghost use Rattle.std.specs.Prelude.{◌≡◌, ◌<◌, IfOk, length};
ghost use Rattle.ft_types.specs.Objects.{reg_rows, queue_rows};
ghost use Rattle.ft_types.specs.Spellable.{IsSpellable};

use crate::{Block, Program, RegType};
use ft_isa::Instr;
use ft_static::Node;
use std::alloc::{AllocError, Global};

/// The nodes.
#[tactic(auto, using(crate::proofs::Copies::grown))]
pub fn copy_nodes<P: Program>(alloc: Global, program: &P) -> Result<Vec<Node>, AllocError>
    requires { IsSpellable (P.object program.now) }
    ensures { IfOk result (λ v. v.items ≡ (P.object program.now).nodes) }
{
    let count = program.node_count();
    let mut nodes = Vec::with_capacity(alloc, count as usize)?;
    for n in 0..count {
        nodes.push(program.node(n))?;
    }
    Ok(nodes)
}

/// All register rows of code type `t`; `count` is their number.
#[tactic(auto, using(crate::proofs::Copies::grown))]
pub fn copy_regs<P: Program>(
    alloc: Global,
    program: &P,
    t: u32,
    count: u32,
) -> Result<Vec<RegType>, AllocError>
    requires there { t < length (P.object program.now).types }
    requires all { count ≡ length (reg_rows (P.object program.now) t) }
    ensures { IfOk result (λ v. v.items ≡ reg_rows (P.object program.now) t) }
{
    let mut regs = Vec::with_capacity(alloc, count as usize)?;
    for j in 0..count {
        regs.push(program.reg_row(t, j))?;
    }
    Ok(regs)
}

/// All queue rows of code type `t`; `count` is their number.
#[tactic(auto, using(crate::proofs::Copies::grown))]
pub fn copy_queue<P: Program>(
    alloc: Global,
    program: &P,
    t: u32,
    count: u32,
) -> Result<Vec<(u32, u32)>, AllocError>
    requires there { t < length (P.object program.now).types }
    requires all { count ≡ length (queue_rows (P.object program.now) t) }
    ensures { IfOk result (λ v. v.items ≡ queue_rows (P.object program.now) t) }
{
    let mut queue = Vec::with_capacity(alloc, count as usize)?;
    for j in 0..count {
        queue.push(program.queue_row(t, j))?;
    }
    Ok(queue)
}

/// The blocks.
#[tactic(auto, using(crate::proofs::Copies::grown))]
pub fn copy_blocks<P: Program>(alloc: Global, program: &P) -> Result<Vec<Block>, AllocError>
    requires { IsSpellable (P.object program.now) }
    ensures { IfOk result (λ v. v.items ≡ (P.object program.now).blocks) }
{
    let count = program.counts().blocks;
    let mut blocks = Vec::with_capacity(alloc, count as usize)?;
    for b in 0..count {
        blocks.push(program.block(b))?;
    }
    Ok(blocks)
}

/// The instructions.
#[tactic(auto, using(crate::proofs::Copies::grown))]
pub fn copy_instrs<P: Program>(alloc: Global, program: &P) -> Result<Vec<Instr>, AllocError>
    requires { IsSpellable (P.object program.now) }
    ensures { IfOk result (λ v. v.items ≡ (P.object program.now).instrs) }
{
    let count = program.counts().instrs;
    let mut instrs = Vec::with_capacity(alloc, count as usize)?;
    for i in 0..count {
        instrs.push(program.instr(i))?;
    }
    Ok(instrs)
}

/// The substitution rows.
pub fn copy_substs<P: Program>(alloc: Global, program: &P) -> Result<Vec<u32>, AllocError>
    requires { IsSpellable (P.object program.now) }
    ensures { IfOk result (λ v. v.items ≡ (P.object program.now).substs) }
{
    let count = program.counts().substs;
    let mut substs = Vec::with_capacity(alloc, count as usize)?;
    for n in 0..count {
        substs.push(program.subst_row(n))?;
    }
    Ok(substs)
}
