//! How many instructions a step becomes, and where blocks begin.
ghost use Rattle.std.specs.Prelude.{◌≡◌, ◌≤◌, [], IfOk};
ghost use Rattle.ft_lower.specs.Cutting.{blocks_onto};
ghost use Rattle.ft_lower.specs.Size.{blocks_size, row_size, size};
ghost use Rattle.ft_dup.specs.Images.{starts};

use ft_lower::{Step3, next_block};
use std::alloc::{AllocError, Global};

/// How many instructions a step becomes.
fn step_size(step: &Step3) -> u32
    ensures { result ≡ size step.now }
{
    match *step {
        Step3::Put { .. } | Step3::Copy { .. } | Step3::Op { .. } => 2,
        Step3::Load { .. }
        | Step3::Store { .. }
        | Step3::LoadAt { .. }
        | Step3::StoreAt { .. }
        | Step3::Exit { .. }
        | Step3::Go { .. } => 4,
        Step3::Stop => 1,
    }
}

/// How many instructions the steps of a block become.
fn block_size(steps: &[Step3]) -> u32
    requires { row_size steps.now ≤ 65536 }
    ensures { result ≡ row_size steps.now }
{
    let mut size = 0;
    for step in steps {
        size += step_size(step);
    }
    size
}

/// The place of each block's first instruction, and how many instructions there are in all.
#[derive(Drop)]
pub(crate) struct Places {
    pub starts: Vec<u32>,
    pub size: u32,
}

/// The places of the blocks into which a row of steps is cut.
pub(crate) fn block_places(alloc: Global, steps: &[Step3]) -> Result<Places, AllocError>
    requires { blocks_size (blocks_onto [] steps.now) ≤ 65536 }
    ensures starts { IfOk result (λ places. places.starts.items ≡ starts (blocks_onto [] steps.now)) }
    ensures size { IfOk result (λ places. places.size ≡ blocks_size (blocks_onto [] steps.now)) }
{
    let mut starts = Vec::new(alloc);
    let mut next = 0;
    let mut left = steps;
    while !left.is_empty() {
        let (block, rest) = next_block(left);
        starts.push(next)?;
        next += block_size(block);
        left = rest;
    }
    Ok(Places { starts, size: next })
}
