//! Whole runs of accepted programs under a plan.
ghost use Rattle.std.specs.Prelude.{◌≡◌, ◌≢◌, None, []};
ghost use Rattle.ft_edge.specs.Lines.{Puts};
ghost use Rattle.ft_semantics.specs.Agrees.{Agrees};
ghost use Rattle.ft_semantics.specs.Run.{outputs_after, status_after};
ghost use Rattle.ft_isa.specs.declared.output.Output.{Output as Committed};
ghost use Rattle.ft_machine.specs.Drives.{EndsAs, output_lines, put_end, IsOfCell};
ghost use Rattle.ft_machine.specs.Goes.{goes_on};
ghost use Rattle.ft_tolerance.specs.Soundness.{IsNeverDetected};

use crate::clean::Clean;
use ft_edge::Sink;
use ft_isa::Plan;
use ft_machine::{Gone, Outlet, Pause, RunEnd, drive, run_under};
use ft_types::Program;

/// Runs an accepted program from its start under a plan, for at most `steps` steps, and writes a line for each output,
/// each with one put. It returns `WriteFault` only after a failed put, which was the last, and `Detected` only if the
/// plan has a strike.
pub fn run<'a, P: Program, K: Sink>(
    start: Clean<'a, P>,
    plan: Plan,
    steps: u64,
    out: &mut K,
) -> RunEnd
    requires { start.taken ≡ 0 }
    ensures ends { EndsAs result (status_after start.entry.object plan.entry.strike plan.entry.wild.now steps) }
    ensures lines { Puts (put_end result) (output_lines start.entry.object (outputs_after start.entry.object plan.entry.strike plan.entry.wild.now steps))
        (K.log out.old) (K.log out.new) }

    // One fault is masked or detected: outputs and status agree with those of the run without the strike.
    ensures agrees { Agrees
        (outputs_after start.entry.object plan.entry.strike plan.entry.wild.now steps)
        (status_after start.entry.object plan.entry.strike plan.entry.wild.now steps)
        (outputs_after start.entry.object None plan.entry.wild.now steps)
        (status_after start.entry.object None plan.entry.wild.now steps) }

    // The run without a strike is never detected; so if the plan has none, neither is this run.
    ensures sound { IsNeverDetected start.entry.object plan.entry.wild.now }
    ensures undetected { plan.entry.strike ≡ None → result ≢ RunEnd.Detected }
{
    let Clean {
        program,
        mut machine,
        taken: _,
    } = start;
    drive(&mut machine, program, plan, steps, out)
}

/// Runs an accepted program from its start without a fault, for at most `steps` steps, and passes each output to an
/// outlet. Ends early if the program ends or the outlet stops it.
pub fn run_clean<'a, P: Program, T: Outlet>(start: Clean<'a, P>, steps: u64, outlet: &mut T) -> Gone
    requires taken { start.taken ≡ 0 }
    requires may { (output : Committed) → IsOfCell start.object output → T.may outlet.old output }
    ensures heard { T.heard outlet.old (outputs_after start.entry.object None [] result.taken) (goes_on result.pause) outlet.new }
    ensures whole { result.pause ≢ Pause.Refused → outputs_after start.entry.object None [] steps ≡ outputs_after start.entry.object None [] result.taken }
{
    let Clean {
        program,
        mut machine,
        taken: _,
    } = start;
    let plan = Plan {
        strike: None,
        wild: &[],
    };
    run_under(&mut machine, program, plan, steps, outlet)
}
