//! An outlet that keeps the first output.
ghost use Rattle.std.specs.Prelude.{◌≡◌};
ghost use Rattle.ft_machine.specs.Advances.{IsFirst, last_of};

use crate::outlet::Outlet;
use crate::stepped::{Pause, Stepped};
use ft_isa::Output;

/// Keeps the first output, and does not go on after it.
#[derive(Drop)]
pub(crate) struct FirstOutput {
    pub(crate) output: Option<Output>,
}

impl Outlet for FirstOutput {
    ghost use Rattle.std.proofs.Common.{refl};

    ghost heard = { λ first outputs goes now. IsFirst first.output outputs goes now.output };

    ghost may = { λ first output. Unit {0} };

    ghost heard_none = { λ first. (refl, refl) };

    fn take(&mut self, output: Output) -> bool {
        self.output = Some(output);
        false
    }
}

impl FirstOutput {
    /// What the last step did, given how the steps ended.
    pub(crate) fn last(&self, pause: Pause) -> Stepped
        ensures { result ≡ last_of pause self.now.output }
    {
        match pause {
            Pause::Running => Stepped::Quiet,
            Pause::Done => Stepped::Done,
            Pause::Detected => Stepped::Detected,
            Pause::Refused => match self.output {
                Some(output) => Stepped::Commit(output),
                None => Stepped::Quiet,
            },
        }
    }
}
