//! The two runs of a recovery: under the plan, and again without the strike.
ghost use Rattle.std.specs.Prelude.{◌≡◌, ◌≢◌, drop, Decides, None, Some, IfOk};
ghost use Rattle.ft_edge.specs.Lines.{Puts, end_of_puts};
ghost use Rattle.ft_types.specs.Spellable.{IsSpellable};
ghost use Rattle.ft_typing.specs.Accepted.{IsAccepted};
ghost use Rattle.ft_semantics.specs.State.{start};
ghost use Rattle.ft_semantics.specs.Run.{outputs_after, status_after};
ghost use Rattle.ft_machine.specs.Drives.{output_lines};
ghost use Rattle.ft_recover.specs.Passing.{RunsTo, Finishes};
ghost use Rattle.ft_recover.specs.Recovery.{EndsAs, Restarts, put_end, restart_output, whole_output};

use crate::passing::Passing;
use crate::recover_end::RecoverEnd;
use ft_edge::{Failed, Sink};
use ft_isa::{Plan, Wild};
use ft_machine::{Machine, Pause, run_under};
use ft_semantics::Status;
use ft_types::Program;

/// Whether a run ended because a put failed.
fn broke_off(pause: Pause) -> bool
    ensures { Decides result (pause ≡ Pause.Refused) }
{
    match pause {
        Pause::Refused => true,
        Pause::Running => false,
        Pause::Done => false,
        Pause::Detected => false,
    }
}

/// Runs a machine from its start under a plan, for at most `steps` steps, and writes a line for each output but the
/// first `passed`. Returns how many outputs there were.
fn run_past<P: Program, K: Sink>(
    machine: &mut Machine,
    program: &P,
    plan: Plan,
    steps: u64,
    passed: u64,
    out: &mut K,
) -> Result<u64, Failed>
    requires spellable { IsSpellable (P.object program.now) }
    requires start { machine.old ≡ start (P.object program.now) }
    ensures runs { IfOk result (RunsTo (P.object program.now) plan.entry.strike plan.entry.wild.now steps machine.new) }
    ensures puts { Puts (end_of_puts result) (output_lines (P.object program.now) (drop passed (outputs_after (P.object program.now) plan.entry.strike plan.entry.wild.now steps)))
        (K.log out.old) (K.log out.new) }
{
    let mut passing = Passing {
        program,
        passed,
        count: 0,
        out,
    };
    let gone = run_under(machine, program, plan, steps, &mut passing);
    if broke_off(gone.pause) {
        return Err(Failed);
    }
    Ok(passing.count)
}

/// Runs a machine from its start without a fault, for at most `steps` steps, and writes a line for each output but the
/// first `committed`.
fn run_again<P: Program, K: Sink>(
    machine: &mut Machine,
    program: &P,
    wild: &[Wild],
    steps: u64,
    committed: u64,
    out: &mut K,
) -> Result<RecoverEnd, Failed>
    requires spellable { IsSpellable (P.object program.now) }
    requires accepted { IsAccepted (P.object program.now) }
    requires start { machine.old ≡ start (P.object program.now) }
    ensures ends { IfOk result (λ end. Finishes end (status_after (P.object program.now) None wild.now steps) (Some committed)) }
    ensures puts { Puts (end_of_puts result) (output_lines (P.object program.now) (drop committed (outputs_after (P.object program.now) None wild.now steps)))
        (K.log out.old) (K.log out.new) }
{
    let plan = Plan { strike: None, wild };
    run_past(machine, program, plan, steps, committed, out)?;
    let again = Some(committed);
    match machine.status() {
        Status::Done => Ok(RecoverEnd::Done { again }),
        Status::Running => Ok(RecoverEnd::OutOfSteps { again }),
        Status::Detected => unreachable!(),
    }
}

/// Runs an accepted program under a plan, for at most `steps` steps. If the fault is detected, runs it again on the
/// second machine.
fn run_both<P: Program, K: Sink>(
    first: &mut Machine,
    second: &mut Machine,
    program: &P,
    plan: Plan,
    steps: u64,
    out: &mut K,
) -> Result<RecoverEnd, Failed>
    requires spellable { IsSpellable (P.object program.now) }
    requires accepted { IsAccepted (P.object program.now) }
    requires first { first.old ≡ start (P.object program.now) }
    requires second { second.old ≡ start (P.object program.now) }
    ensures ends { IfOk result (λ end. Finishes end (status_after (P.object program.now) None plan.entry.wild.now steps)
        (restart_output (P.object program.now) plan.entry.strike plan.entry.wild.now steps)) }
    ensures puts { Puts (end_of_puts result) (whole_output (P.object program.now) plan.entry.wild.now steps)
        (K.log out.old) (K.log out.new) }
{
    let committed = run_past(first, program, plan, steps, 0, out)?;
    match first.status() {
        Status::Done => Ok(RecoverEnd::Done { again: None }),
        Status::Running => Ok(RecoverEnd::OutOfSteps { again: None }),
        Status::Detected => run_again(second, program, plan.wild, steps, committed, out),
    }
}

/// Like `run_both`, but a failed put is one of the ends.
pub(crate) fn recover_on<P: Program, K: Sink>(
    first: &mut Machine,
    second: &mut Machine,
    program: &P,
    plan: Plan,
    steps: u64,
    out: &mut K,
) -> RecoverEnd
    requires spellable { IsSpellable (P.object program.now) }
    requires accepted { IsAccepted (P.object program.now) }
    requires first { first.old ≡ start (P.object program.now) }
    requires second { second.old ≡ start (P.object program.now) }
    ensures ends { EndsAs result (status_after (P.object program.now) None plan.entry.wild.now steps) }
    ensures again { Restarts result (restart_output (P.object program.now) plan.entry.strike plan.entry.wild.now steps) }
    ensures lines { Puts (put_end result) (whole_output (P.object program.now) plan.entry.wild.now steps)
        (K.log out.old) (K.log out.new) }
{
    match run_both(first, second, program, plan, steps, out) {
        Ok(end) => end,
        Err(_) => RecoverEnd::WriteFault,
    }
}
