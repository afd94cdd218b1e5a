//! Rows of steps, cut into blocks.
ghost use Rattle.std.specs.Prelude.{◌≡◌, ◌<◌, ◌∷◌, [], length};
ghost use Rattle.ft_lower.specs.Well.{is_last};
ghost use Rattle.ft_lower.specs.Cutting.{blocks_onto};

use crate::step3::Step3;

/// Whether a step ends its block.
fn ends_block(step: &Step3) -> bool
    ensures { result ≡ is_last step.now }
{
    matches!(step, Step3::Go { .. } | Step3::Stop)
}

/// The first block of a non-empty row of steps, and the steps after it.
#[tactic(auto, using(crate::proofs::Cuts::cut_on, crate::proofs::Cuts::cut_here, crate::proofs::Cuts::cut_end))]
pub fn next_block(steps: &[Step3]) -> (&[Step3], &[Step3])
    requires { 0 < length steps.now }
    ensures blocks { blocks_onto [] steps.now ≡ result.0.now ∷ blocks_onto [] result.1.now }
    ensures shorter { length result.1.now < length steps.now }
{
    let mut last = 0;
    while last + 1 < steps.len() && !ends_block(&steps[last]) {
        last += 1;
    }
    steps.split_at(last + 1)
}
