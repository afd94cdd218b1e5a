//! How many outputs a run has, and the value of the last one.
ghost use Rattle.std.specs.Prelude.{◌≡◌, [], None, true};
ghost use Rattle.ft_semantics.specs.Run.{outputs_after};
ghost use Rattle.ft_demo.specs.Shown.{Tallies, TalliesMore};

use ft_isa::Output;
use ft_machine::Outlet;
use ft_runs::{Clean, run_clean};
use ft_types::Program;

/// The maximum number of steps of a run.
pub(crate) const STEPS: u64 = 131_072;

/// How many outputs there are, and the value of the last one, or 0.
#[derive(Clone, Copy)]
pub(crate) struct Tally {
    pub(crate) count: u64,
    pub(crate) last: u64,
}

impl Outlet for Tally {
    ghost use Rattle.std.proofs.Common.{refl};
    ghost use Rattle.ft_demo.specs.Shown.{tallies_none};

    ghost heard = { λ first outputs goes now. (goes ≡ true) × TalliesMore first outputs now };

    ghost may = { λ tally output. Unit {0} };

    ghost heard_none = { λ tally. (refl, tallies_none tally) };

    fn take(&mut self, output: Output) -> bool {
        self.count = self.count.wrapping_add(1);
        self.last = output.value;
        true
    }
}

/// The tally of a run without a fault, for at most 131,072 steps.
pub(crate) fn tally_run<P: Program>(start: Clean<P>) -> Tally
    requires taken { start.taken ≡ 0 }
    ensures { Tallies result (outputs_after start.entry.object None [] 131072) }
{
    let mut tally = Tally { count: 0, last: 0 };
    let _ = run_clean(start, STEPS, &mut tally);
    tally
}
