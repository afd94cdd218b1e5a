//! Doubling a whole flow.
ghost use Rattle.std.specs.Prelude.{◌≡◌, ◌<◌, length, slice_index, IfOk};
ghost use Rattle.std.specs.List.{All};
ghost use Rattle.ft_lower.specs.Cutting.{blocks_of};
ghost use Rattle.ft_lower.specs.Size.{blocks_size, pairs_of};
ghost use Rattle.ft_lower.specs.Well.{IsWell};
ghost use Rattle.ft_dup.specs.Shape.{HasShape, HasTarget};
ghost use Rattle.ft_dup.specs.Images.{doubled, row_images, starts};
ghost use Rattle.ft_dup.specs.Doubles.{RunsAs};

use crate::doubled::Doubled;
use crate::emission::put_step;
use crate::sizes::{Places, block_places};
use ft_isa::{Instr, NoMemory};
use ft_lower::{Flow, Step3};
use std::alloc::{AllocError, Global};

/// The instructions of steps, with memory for `room` instructions reserved at once.
fn put_steps(
    alloc: Global,
    starts: &[u32],
    steps: &[Step3],
    room: u32,
) -> Result<Vec<Instr>, AllocError>
    requires pairs { All (λ i. All (λ p. p < 32) (pairs_of i)) steps.now }
    requires targets { All (HasTarget (length starts.now)) steps.now }
    ensures { IfOk result (λ code. code.items ≡ row_images (slice_index starts.now) steps.now) }
{
    let mut code = Vec::with_capacity(alloc, room as usize)?;
    for step in steps {
        put_step(&mut code, starts, step)?;
    }
    Ok(code)
}

/// Doubles a flow: the instructions of its steps, each in green and in blue, block by block. The flow must have this
/// shape: it has only pairs below 32, each jump goes to an existing block other than the entry, its last step ends a
/// block, and there are at most 65,536 instructions in all. The only error is `NoMemory`.
pub fn duplicate(alloc: Global, flow: &Flow) -> Result<Doubled, NoMemory>
    requires { HasShape (blocks_of flow.now) }
    ensures vars { IfOk result (λ d. d.vars ≡ flow.now.vars) }
    ensures instrs { IfOk result (λ d. d.instrs.items ≡ doubled (blocks_of flow.now)) }
    ensures starts { IfOk result (λ d. d.starts.items ≡ starts (blocks_of flow.now)) }
    ensures size { IfOk result (λ d. length d.instrs.items ≡ blocks_size (blocks_of flow.now)) }
    ensures runs { IfOk result (λ d. IsWell flow.now.vars flow.now.cells (blocks_of flow.now) →
        RunsAs flow.now.vars flow.now.cells (blocks_of flow.now)) }
{
    let Places { starts, size } = block_places(alloc, &flow.steps)?;
    let instrs = put_steps(alloc, &starts, &flow.steps, size)?;
    Ok(Doubled {
        vars: flow.vars,
        starts,
        instrs,
    })
}
