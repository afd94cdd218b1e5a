//! What steps did.
ghost use Rattle.std.specs.Prelude.{◌≡◌, Decides};

use ft_isa::Output;

/// What a step did.
#[derive(Clone, Copy, Debug, PartialEq, Eq)]
pub enum Stepped {
    /// The machine is still running, and nothing was committed.
    Quiet,
    /// A blue store committed this pair.
    Commit(Output),
    /// The machine has executed `halt`.
    Done,
    /// The machine has noticed a fault and stopped.
    Detected,
}

/// Steps in a row: how many, and what the last of them did. Those before it were quiet.
#[derive(Clone, Copy, Debug, PartialEq, Eq)]
pub struct Advance {
    /// The number of steps.
    pub taken: u64,
    /// What the last step did; `Quiet` if no steps were asked for.
    pub last: Stepped,
}

/// How steps ended, if an outlet took their outputs.
#[derive(Clone, Copy, Debug, PartialEq, Eq)]
pub enum Pause {
    /// The machine is still running.
    Running,
    /// The machine has executed `halt`.
    Done,
    /// The machine has noticed a fault and stopped.
    Detected,
    /// The last step committed an output after which the outlet does not go on.
    Refused,
}

/// Steps whose outputs an outlet took: how many, and how they ended.
#[derive(Clone, Copy, Debug, PartialEq, Eq)]
pub struct Gone {
    /// The number of steps.
    pub taken: u64,
    /// How they ended.
    pub pause: Pause,
}

/// Whether more steps can be taken.
#[inline(always)]
pub(crate) fn runs_on(pause: Pause) -> bool
    ensures { Decides result (pause ≡ Pause.Running) }
{
    match pause {
        Pause::Running => true,
        Pause::Done => false,
        Pause::Detected => false,
        Pause::Refused => false,
    }
}
