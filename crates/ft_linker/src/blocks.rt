//! Walks blocks, and finds the first fault.
ghost use Rattle.std.specs.Prelude.{◌≡◌, ◌<◌, ◌≤◌, length, slice_range};
ghost use Rattle.std.specs.FinMap as finite;
ghost use Rattle.ft_types.specs.Objects.{block_end, block_start};
ghost use Rattle.ft_types.specs.Spellable.{IsSpellable};
ghost use Rattle.ft_modules.specs.CodeWalk.{code_walk};
ghost use Rattle.ft_modules.specs.LinkRefusals.{first_walk_fault};

use crate::traced::Traced;
use ft_types::Object;

/// Where block `b` begins and ends. It ends where the next block begins, or after the last instruction.
pub fn block_range(object: &Object, b: u32) -> (u32, u32)
    requires spellable { IsSpellable object.now }
    requires there { b < length object.now.blocks }
    ensures first { result.0 ≡ block_start object.now b }
    ensures past { result.1 ≡ block_end object.now b }
    ensures some { result.0 < result.1 }
    ensures within { result.1 ≤ length object.now.instrs }
{
    let block = *object.blocks.at(b as usize);
    let next = b as usize + 1;
    if next < object.blocks.len() {
        let after = *object.blocks.at(next);
        return (block.start, after.start);
    }
    let count = object.instrs.len() as u32;
    (block.start, count)
}

/// The index, counted from `first`, of the first of these instructions at which the walk fails.
fn walk(object: &Object, first: u32, past: u32) -> Option<u32>
    requires { past ≤ length object.now.instrs }
    ensures { result ≡ code_walk object.now finite.empty 0 (slice_range object.now.instrs first past) }
{
    let mut traced = Traced::new();
    for i in first..past {
        let instr = *object.instrs.at(i as usize);
        if !traced.is_traced(object, instr) {
            return Some(i - first);
        }
        traced.pass(instr);
    }
    None
}

/// The first block in which the walk fails, and the index in it.
pub fn first_fault(object: &Object) -> Option<(u32, u32)>
    requires { IsSpellable object.now }
    ensures { result ≡ first_walk_fault object.now 0 object.now.blocks }
{
    for b in 0..object.blocks.len() as u32 {
        let (first, past) = block_range(object, b);
        if let Some(index) = walk(object, first, past) {
            return Some((b, index));
        }
    }
    None
}
