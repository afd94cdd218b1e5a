//! The check within a budget.
ghost use Rattle.std.specs.Prelude.{◌≡◌, ◌^◌, ◌<◌, ◌≤◌, ◌≢◌, ◌↔◌, IfOk, IfSome, None, true};
ghost use Rattle.ft_typing.specs.Accepted.{refusal};
ghost use Rattle.ft_types.specs.Spellable.{IsSpellable};
ghost use Rattle.ft_checker.specs.Costs.{check_cost};
ghost use Rattle.ft_meter.specs.Budgets.{is_spent};
ghost use Rattle.ft_checker.specs.Within.{GivesUp, JudgesWithin};

use crate::checked::Checked;
use crate::error::CheckError;
use crate::judge::judge;
use ft_meter::Budget;
use ft_types::Program;
use std::alloc::Global;
use thiserror::Error;

/// Why a check within a budget has not accepted an object: the check's own error, or the budget refused steps or work.
#[derive(Clone, Copy, Debug, PartialEq, Eq, Error)]
pub enum Unfinished {
    #[error("{0}")]
    Check(CheckError),
    #[error("the check takes more work than its budget has")]
    Work,
}

/// Checks a program as `check` does, and asks a budget for each step before it is taken, and for other work before it is
/// done. It gives up exactly when the budget has refused, which says nothing about the object. Steps are never refused if
/// as many are left as the bound on the steps of a check. A budget that was spent before stays so.
pub fn check_within<'a, P: Program>(
    alloc: Global,
    program: &'a P,
    budget: &mut Budget,
) -> Result<Checked<'a, P>, Unfinished>
    requires { IsSpellable (P.object program.now) }
    ensures judged { JudgesWithin (refusal (P.object program.now)) result }
    ensures program { IfOk result (λ k. k ≡ program.now) }
    ensures work { GivesUp result ↔ (is_spent budget.new.steps budget.new.work ≡ true) }
    ensures enough { IfSome budget.old.steps (λ l. l < 2 ^ 64 → check_cost (P.object program.now) ≤ l → budget.new.steps ≢ None) }
{
    let judged = judge(alloc, program, budget);
    if budget.is_spent() {
        return Err(Unfinished::Work);
    }
    match judged {
        Ok(()) => Ok(Checked { program }),
        Err(error) => Err(Unfinished::Check(error)),
    }
}
