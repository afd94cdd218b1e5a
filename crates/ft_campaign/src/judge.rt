//! The verdicts of faults.
ghost use Rattle.std.specs.Prelude.{◌≡◌, ◌≤◌, ◌+◌, ◌*◌, ℕ, IfOk, length, sum_by};
ghost use Rattle.ft_isa.specs.declared.plan.Strike.{Strike as Fault};
ghost use Rattle.ft_types.specs.Spellable.{IsSpellable};
ghost use Rattle.ft_semantics.specs.State.{HasCells};
ghost use Rattle.ft_campaign.specs.Snapshots.{IsClean, IsCost};
ghost use Rattle.ft_campaign.specs.Verdicts.{IsVerdict, AreVerdicts};

use crate::clean::{KeptRun, SPACING};
use crate::clean_run::run_clean;
use crate::follow::count_outputs;
use crate::struck_run::{StruckRun, Trial, judge_run};
use crate::verdict::Verdict;
use ft_isa::{NoMemory, Steps, Strike, Wild};
use ft_machine::{Machine, WildLeft};
use ft_types::Program;
use std::alloc::Global;
use std::sync::ledger::Ledger;

/// The verdict of a fault, found by running from the last snapshot at or before its strike.
fn judge_fault<'w, P: Program, L: Ledger>(
    program: &P,
    clean: &KeptRun<'w>,
    trial: Trial<'_>,
    run: &mut StruckRun<'w>,
    steps: &mut Steps<L>,
) -> Verdict
    requires spellable { IsSpellable (P.object program.now) }
    requires n { trial.n ≤ 1000000 }
    requires clean { IsClean (P.object program.now) trial.wild.now trial.n clean.now }
    requires cells { HasCells (length (P.object program.now).cells) run.old.machine }
    ensures verdict { IsVerdict (P.object program.now) trial.entry.fault trial.entry.wild.now trial.entry.n result }
    ensures cells { HasCells (length (P.object program.now).cells) run.new.machine }
    ensures steps { (c : ℕ) → IsCost (P.object program.now) trial.entry.wild.now trial.entry.n trial.entry.fault c → steps.new ≤ steps.old + c }
{
    let fault = trial.fault;
    if !clean.is_struck(fault) {
        return Verdict::Idle;
    }
    // The length of a vector is bounded, so the sum of the counts fits.
    let _limit = clean.outputs.len();
    let snapshots = clean.snapshots.as_slice();
    let snapshot = &snapshots[(fault.step / SPACING) as usize];
    run.machine.copy_from(&snapshot.machine);
    run.left.copy_from(&snapshot.wild);
    let count = count_outputs(
        &mut run.machine,
        program,
        &mut run.left,
        fault.step % SPACING,
        steps,
    );
    let _ = run.machine.strike(fault.site, fault.value);
    judge_run(program, clean, trial, run, snapshot.count + count, steps)
}

/// Finds the verdict of each fault, in the list's order. `steps` counts the machine's steps.
pub fn find_verdicts<P: Program, L: Ledger>(
    alloc: Global,
    program: &P,
    faults: &[Strike],
    wild: &[Wild],
    n: u64,
    steps: &mut Steps<L>,
) -> Result<Vec<Verdict>, NoMemory>
    requires spellable { IsSpellable (P.object program.now) }
    requires n { n ≤ 1000000 }
    ensures verdicts { IfOk result (λ verdicts. AreVerdicts (P.object program.now) faults.now wild.now n verdicts.items) }
    ensures steps { steps.new ≤ steps.old + (length faults.now + 1) * n }
    ensures cost { (cost : Fault → ℕ) → ((x : Fault) → IsCost (P.object program.now) wild.now n x (cost x)) → steps.new ≤ steps.old + (n + sum_by cost faults.now) }
{
    let clean = run_clean(alloc, program, wild, n, steps)?;
    let machine = Machine::new(alloc, program)?;
    let left = WildLeft::new(wild);
    let mut run = StruckRun { machine, left };
    let mut verdicts = Vec::new(alloc);
    for fault in faults {
        let trial = Trial {
            fault: *fault,
            wild,
            n,
        };
        let verdict = judge_fault(program, &clean, trial, &mut run, steps);
        verdicts.push(verdict).map_err(|_| NoMemory)?;
    }
    Ok(verdicts)
}
