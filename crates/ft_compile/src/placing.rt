//! Places substitutions in their instructions, and lists the blocks.
ghost use Rattle.std.specs.Prelude.{◌≡◌, IfOk};
ghost use Rattle.ft_compile.specs.Emitted.{blocks_at, placed, substs_left, with_subst};

use ft_isa::{Instr, Subst};
use ft_types::Block;
use std::alloc::{AllocError, Global};

/// Gives a blue jump or branch the first of these substitutions, and returns those that are left.
fn place_next<'a>(instr: &mut Instr, left: &'a [Subst]) -> &'a [Subst]
    ensures placed { instr.new ≡ with_subst instr.old left.now }
    ensures left { result.now ≡ substs_left instr.old left.now }
{
    let Some(first) = left.first() else {
        return left;
    };
    match instr {
        Instr::JmpB { subst, .. } => *subst = *first,
        Instr::BzB { subst, .. } => *subst = *first,
        _ => return left,
    }
    &left[1..]
}

/// Gives these substitutions to the instructions, in order.
pub fn place(instrs: &mut [Instr], substs: &[Subst])
    ensures { instrs.new ≡ placed substs.now instrs.old }
{
    let mut left = substs;
    for instr in instrs.iter_mut() {
        left = place_next(instr, left);
    }
}

/// The blocks that start at these places: the first has code type 0, the others code type 1.
pub fn blocks_from(alloc: Global, starts: &[u32]) -> Result<Vec<Block>, AllocError>
    ensures { IfOk result (λ v. v.items ≡ blocks_at starts.now) }
{
    let mut blocks = Vec::with_capacity(alloc, starts.len())?;
    let mut code_type = 0;
    for start in starts {
        blocks.push(Block {
            start: *start,
            code_type,
        })?;
        code_type = 1;
    }
    Ok(blocks)
}
