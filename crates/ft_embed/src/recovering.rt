//! Recovers accepted objects, and puts the outputs into the caller's array.
ghost use Rattle.std.specs.Prelude.{◌≡◌, ◌≢◌, ◌⊎◌, ℕ, List, Option, true, false};
ghost use Rattle.ft_isa.specs.declared.plan.Strike.{Strike as Fault};
ghost use Rattle.ft_isa.specs.declared.plan.Wild.{Wild as Answer};
ghost use Rattle.ft_types.specs.Spellable.{IsSpellable};
ghost use Rattle.ft_typing.specs.Accepted.{IsAccepted, refusal};
ghost use Rattle.ft_semantics.specs.State.{start};
ghost use Rattle.ft_embed.specs.Plans.{IsFault, AreAnswers};
ghost use Rattle.ft_embed.specs.Outputs.{not_begun};
ghost use Rattle.ft_embed.specs.Recoveries.{RecoversFile, RecoversInto};
ghost use Rattle.ft_embed.specs.Verdicts.{Tells, judged, nothing as nothing_told, verdict_on};

use crate::answer::{RunAnswer, has_run, has_run_again, not_run};
use crate::checking::refuse;
use crate::filling::CellOutput;
use crate::plan_text::{read_answers, read_fault};
use crate::refused::told_error;
use crate::running::{end_of, no_run, run_machine};
use crate::verdict::Verdict;
use ft_checker::check_uncounted;
use ft_isa::{Plan, WildError};
use ft_machine::Machine;
use ft_semantics::Status;
use ft_types::Program;
use ft_view::View;
use std::alloc::Global;

/// Whether a machine with this status has detected a fault.
fn is_detected(status: Status) -> bool
    ensures yes { result ≡ true → status ≡ Status.Detected }
    ensures no { result ≡ false → status ≢ Status.Detected }
{
    match status {
        Status::Detected => true,
        Status::Done => false,
        Status::Running => false,
    }
}

/// Runs a machine under a plan and, if it detects a fault, runs a second one without the strike.
fn recover_machines<P: Program>(
    first: &mut Machine,
    second: &mut Machine,
    program: &P,
    plan: Plan,
    steps: u64,
    out: &mut [CellOutput],
) -> RunAnswer
    requires spellable { IsSpellable (P.object program.now) }
    requires accepted { IsAccepted (P.object program.now) }
    requires first { first.old ≡ start (P.object program.now) }
    requires second { second.old ≡ start (P.object program.now) }
    ensures recovers { RecoversInto (P.object program.now) plan.entry.strike plan.entry.wild.now steps result.status result.ran.steps result.ran.count result.ran.restarts result.ran.again out.new }
    ensures malformed { result.status ≢ 7 }
    ensures refused { result.status ≢ 8 }
    ensures planned { result.status ≢ 2 }
    ensures unrefused { result.why ≡ nothing_told }
    ensures memory { result.status ≢ 5 }
{
    let filled = run_machine(first, program, plan, steps, out);
    let before = first.status();
    if !is_detected(before) {
        let status = end_of(before, filled.taken, steps);
        return has_run(status, filled.taken, filled.count as u64);
    }
    let clean = Plan {
        strike: None,
        wild: plan.wild,
    };
    let whole = run_machine(second, program, clean, steps, out);
    let after = second.status();
    let status = end_of(after, whole.taken, steps);
    has_run_again(status, whole.taken, whole.count as u64, filled.count as u64)
}

/// Checks a program, runs it, and runs it again if a fault is detected.
fn recover_program<P: Program>(
    alloc: Global,
    program: &P,
    plan: Plan,
    steps: u64,
    out: &mut [CellOutput],
) -> RunAnswer
    requires { IsSpellable (P.object program.now) }
    ensures recovers { result.status ≢ 5 → result.status ≢ 8 → RecoversInto (P.object program.now) plan.entry.strike plan.entry.wild.now steps result.status result.ran.steps result.ran.count result.ran.restarts result.ran.again out.new }
    ensures accepted { result.status ≢ 5 → result.status ≢ 8 → IsAccepted (P.object program.now) }
    ensures refused { result.status ≡ 8 → Tells result.status result.why (judged (refusal (P.object program.now))) }
    ensures other { result.status ≢ 7 }
    ensures planned { result.status ≢ 2 }
    ensures unrefused { result.status ≢ 8 → result.why ≡ nothing_told }
    ensures unrun { (result.status ≡ 5) ⊎ (result.status ≡ 8) → result.ran ≡ not_begun }
    ensures kept { (result.status ≡ 5) ⊎ (result.status ≡ 8) → out.new ≡ out.old }
{
    match check_uncounted(alloc, program) {
        Ok(_) => {}
        Err(error) => return not_run(refuse(error)),
    }
    let Ok(mut first) = Machine::new(alloc, program) else {
        return no_run(5);
    };
    let Ok(mut second) = Machine::new(alloc, program) else {
        return no_run(5);
    };
    recover_machines(&mut first, &mut second, program, plan, steps, out)
}

/// Checks the object that bytes spell, runs it, and runs it again if a fault is detected.
fn recover_bytes(
    alloc: Global,
    bytes: &[u8],
    plan: Plan,
    steps: u64,
    out: &mut [CellOutput],
) -> RunAnswer
    ensures recovers { result.status ≢ 5 → result.status ≢ 7 → result.status ≢ 8 → (fault wild : List ℕ) → IsFault fault plan.entry.strike → AreAnswers wild plan.entry.wild.now →
        RecoversFile bytes.now fault wild steps result.status result.ran.steps result.ran.count result.ran.restarts result.ran.again out.new }
    ensures malformed { result.status ≡ 7 → Tells result.status result.why (verdict_on bytes.now) }
    ensures refused { result.status ≡ 8 → Tells result.status result.why (verdict_on bytes.now) }
    ensures planned { result.status ≢ 2 }
    ensures unrefused { result.status ≢ 7 → result.status ≢ 8 → result.why ≡ nothing_told }
    ensures unrun { (result.status ≡ 5) ⊎ (result.status ≡ 7) ⊎ (result.status ≡ 8) → result.ran ≡ not_begun }
    ensures kept { (result.status ≡ 5) ⊎ (result.status ≡ 7) ⊎ (result.status ≡ 8) → out.new ≡ out.old }
{
    match View::over(bytes) {
        Ok(view) => recover_program(alloc, &view, plan, steps, out),
        Err(error) => not_run(Verdict {
            status: 7,
            why: told_error(error),
        }),
    }
}

/// Checks the object that bytes spell, and runs it from its start for at most `steps` steps, under the plan that two
/// texts spell, as `run` does. If a fault is detected, it runs the object again without the fault, and the new outputs
/// replace the first ones. So the outputs and the status are those of the run without a fault. The status is 0 for a
/// run that is done; 9 for one that is still running after the steps; 14 if the array is full; 2 if a text is invalid;
/// 7 or 8 for bytes that are refused; or 5 if memory runs out.
pub fn recover(
    alloc: Global,
    bytes: &[u8],
    fault: &[u8],
    wild: &[u8],
    steps: u64,
    out: &mut [CellOutput],
) -> RunAnswer
    ensures recovers { result.status ≢ 2 → result.status ≢ 5 → result.status ≢ 7 → result.status ≢ 8 → RecoversFile bytes.now fault.now wild.now steps result.status result.ran.steps result.ran.count result.ran.restarts result.ran.again out.new }
    ensures no_plan { result.status ≡ 2 → (strike : Option Fault) (answers : List Answer) → IsFault fault.now strike → AreAnswers wild.now answers → ⊥ }
    ensures malformed { result.status ≡ 7 → Tells result.status result.why (verdict_on bytes.now) }
    ensures refused { result.status ≡ 8 → Tells result.status result.why (verdict_on bytes.now) }
    ensures unrefused { result.status ≢ 7 → result.status ≢ 8 → result.why ≡ nothing_told }
    ensures unrun { (result.status ≡ 2) ⊎ (result.status ≡ 5) ⊎ (result.status ≡ 7) ⊎ (result.status ≡ 8) → result.ran ≡ not_begun }
    ensures kept { (result.status ≡ 2) ⊎ (result.status ≡ 5) ⊎ (result.status ≡ 7) ⊎ (result.status ≡ 8) → out.new ≡ out.old }
{
    let Ok(strike) = read_fault(fault) else {
        return no_run(2);
    };
    match read_answers(alloc, wild) {
        Ok(answers) => {
            let plan = Plan {
                strike,
                wild: answers.as_slice(),
            };
            recover_bytes(alloc, bytes, plan, steps, out)
        }
        Err(WildError::Form { at: _ }) => no_run(2),
        Err(WildError::NoMemory) => no_run(5),
    }
}
