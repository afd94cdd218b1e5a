//! How far a run got, and how it ended.
ghost use Rattle.std.specs.Prelude.{◌≡◌};
ghost use Rattle.ft_embed.specs.Verdicts.{nothing as nothing_told};

use crate::refused::{Refused, nothing};
use crate::verdict::Verdict;

/// How far a run got: the steps that were taken, and the number of outputs in the array. If the run was restarted,
/// `restarts` is 1, and `again` is the number of outputs that the first run had committed; otherwise both are 0.
#[repr(C)]
#[derive(Clone, Copy)]
pub struct Ran {
    pub steps: u64,
    pub count: u64,
    pub restarts: u64,
    pub again: u64,
}

/// The result of a run: a status, how far the run got, and why the object is refused, if it is.
#[derive(Clone, Copy)]
pub struct RunAnswer {
    pub status: u32,
    pub ran: Ran,
    pub why: Refused,
}

/// The result of a run that ended with this status after this many steps.
pub(crate) fn has_run(status: u32, steps: u64, count: u64) -> RunAnswer
    ensures { result ≡ record { status = status; ran = record { steps = steps; count = count; restarts = 0; again = 0 }; why = nothing_told } }
{
    RunAnswer {
        status,
        ran: Ran {
            steps,
            count,
            restarts: 0,
            again: 0,
        },
        why: nothing(),
    }
}

/// The result with this verdict if nothing was run.
pub(crate) fn not_run(verdict: Verdict) -> RunAnswer
    ensures { result ≡ record { status = verdict.status; ran = record { steps = 0; count = 0; restarts = 0; again = 0 }; why = verdict.why } }
{
    RunAnswer {
        status: verdict.status,
        ran: Ran {
            steps: 0,
            count: 0,
            restarts: 0,
            again: 0,
        },
        why: verdict.why,
    }
}

/// The result of a run that was restarted after this many outputs, and ended with this status after this many steps.
pub(crate) fn has_run_again(status: u32, steps: u64, count: u64, again: u64) -> RunAnswer
    ensures { result ≡ record { status = status; ran = record { steps = steps; count = count; restarts = 1; again = again }; why = nothing_told } }
{
    RunAnswer {
        status,
        ran: Ran {
            steps,
            count,
            restarts: 1,
            again,
        },
        why: nothing(),
    }
}
