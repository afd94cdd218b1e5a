//! Whole runs under a plan.
ghost use Rattle.std.specs.Prelude.{◌≡◌, ℕ, ◌<◌, ◌≤◌, ◌+◌, length, true};
ghost use Rattle.ft_edge.specs.Lines.{Puts};
ghost use Rattle.ft_isa.specs.declared.output.Output.{Output as Committed};
ghost use Rattle.ft_types.specs.Spellable.{IsSpellable};
ghost use Rattle.ft_semantics.specs.State.{start, is_cell};
ghost use Rattle.ft_semantics.specs.Strike.{struck_before};
ghost use Rattle.ft_semantics.specs.Run.{outputs_after, status_after};
ghost use Rattle.ft_machine.specs.Spans.{Spares};
ghost use Rattle.ft_machine.specs.Goes.{HasRun, goes_on};
ghost use Rattle.ft_machine.specs.Drives.{EndsAs, output_lines, put_end, HasTaken, Stops, PutsOutputs, run_end};

use crate::lines::Lines;
use crate::machine::Machine;
use crate::outlet::Outlet;
use crate::stepped::{Gone, Pause, runs_on};
use crate::wild::WildLeft;
use ft_edge::Sink;
use ft_isa::{Plan, Strike};
use ft_types::Program;

/// How a run ended.
#[derive(Clone, Copy, Debug, PartialEq, Eq)]
pub enum RunEnd {
    /// The machine executed `halt`.
    Done,
    /// The machine noticed a fault.
    Detected,
    /// The machine is still running after the last step.
    OutOfSteps,
    /// A line could not be written.
    WriteFault,
}

/// Strikes before step `k`, if the plan strikes there.
pub fn strike_before(machine: &mut Machine, strike: Option<Strike>, k: u64)
    ensures { machine.new ≡ struck_before strike k machine.old }
{
    if let Some(strike) = strike {
        if strike.step == k {
            let _ = machine.strike(strike.site, strike.value);
        }
    }
}

/// How many of a run's first `steps` steps come before its strike.
pub fn steps_before(strike: Option<Strike>, steps: u64) -> u64
    ensures within { result ≤ steps }
    ensures before { (j : ℕ) → j < result → Spares strike j }
    ensures after { (j : ℕ) → result < steps → result < j → Spares strike j }
{
    let Some(strike) = strike else {
        return steps;
    };
    if strike.step < steps {
        return strike.step;
    }
    steps
}

/// Runs a machine from its start under a plan, for at most `steps` steps, and passes each output to an outlet. Ends
/// early if the machine stops or the outlet does not go on.
pub fn run_under<P: Program, T: Outlet>(
    machine: &mut Machine,
    program: &P,
    plan: Plan,
    steps: u64,
    outlet: &mut T,
) -> Gone
    requires spellable { IsSpellable (P.object program.now) }
    requires start { machine.old ≡ start (P.object program.now) }
    requires may { (output : Committed) → is_cell machine.old.cells output.addr ≡ true → T.may outlet.old output }
    ensures ran { HasRun (P.object program.now) plan.entry.strike plan.entry.wild.now machine.new steps result.taken result.pause }
    ensures heard { T.heard outlet.old (outputs_after (P.object program.now) plan.entry.strike plan.entry.wild.now result.taken) (goes_on result.pause) outlet.new }
{
    let mut wild = WildLeft::new(plan.wild);
    let before = steps_before(plan.strike, steps);
    let first = machine.go(program, &mut wild, before, outlet);
    if before == steps {
        return first;
    }
    if !runs_on(first.pause) {
        return first;
    }
    strike_before(machine, plan.strike, before);
    let second = machine.go(program, &mut wild, steps - before, outlet);
    Gone {
        taken: before + second.taken,
        pause: second.pause,
    }
}

/// The result of a drive, given how its steps ended.
fn run_end(pause: Pause) -> RunEnd
    ensures { result ≡ run_end pause }
{
    match pause {
        Pause::Running => RunEnd::OutOfSteps,
        Pause::Done => RunEnd::Done,
        Pause::Detected => RunEnd::Detected,
        Pause::Refused => RunEnd::WriteFault,
    }
}

/// Runs a machine from its start under a plan, for at most `steps` steps, and writes a line for each output, each with
/// one put. Returns `WriteFault` only if a put failed; nothing is put after that.
pub fn drive<P: Program, K: Sink>(
    machine: &mut Machine,
    program: &P,
    plan: Plan,
    steps: u64,
    out: &mut K,
) -> RunEnd
    requires spellable { IsSpellable (P.object program.now) }
    requires start { machine.old ≡ start (P.object program.now) }
    ensures ends { EndsAs result (status_after (P.object program.now) plan.entry.strike plan.entry.wild.now steps) }
    ensures lines { Puts (put_end result) (output_lines (P.object program.now) (outputs_after (P.object program.now) plan.entry.strike plan.entry.wild.now steps))
        (K.log out.old) (K.log out.new) }
    ensures stops { Stops result (λ k. HasTaken (P.object program.now) plan.entry.strike plan.entry.wild.now k
        machine.new (K.log out.old) (K.log out.new)) (outputs_after (P.object program.now) plan.entry.strike plan.entry.wild.now) steps }
{
    let mut lines = Lines { program, out };
    let gone = run_under(machine, program, plan, steps, &mut lines);
    run_end(gone.pause)
}
