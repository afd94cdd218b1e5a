//! Runs accepted objects, and puts the outputs into the caller's array.
ghost use Rattle.std.specs.Prelude.{◌≡◌, ◌≢◌, ◌⊎◌, ◌≤◌, ◌<◌, ℕ, length, IfOk, List, Option};
ghost use Rattle.ft_isa.specs.declared.plan.Strike.{Strike as Fault};
ghost use Rattle.ft_isa.specs.declared.plan.Wild.{Wild as Answer};
ghost use Rattle.ft_types.specs.Spellable.{IsSpellable};
ghost use Rattle.ft_typing.specs.Accepted.{IsAccepted, refusal};
ghost use Rattle.ft_semantics.specs.State.{start};
ghost use Rattle.ft_semantics.specs.Strike.{struck_before};
ghost use Rattle.ft_machine.specs.Spans.{Spares};
ghost use Rattle.ft_embed.specs.Plans.{IsFault, AreAnswers};
ghost use Rattle.ft_embed.specs.Outputs.{Ends, IsOnce, RunsFile, RunsInto, Takes, not_begun};
ghost use Rattle.ft_embed.specs.Verdicts.{Tells, judged, nothing as nothing_told, verdict_on};

use crate::answer::{RunAnswer, has_run, not_run};
use crate::checking::refuse;
use crate::filling::{CellOutput, Filled, fill};
use crate::plan_text::{read_answers, read_fault};
use crate::refused::told_error;
use crate::verdict::{Verdict, unrefused};
use ft_checker::check_uncounted;
use ft_isa::{Plan, Strike, WildError};
use ft_machine::{Machine, WildLeft, steps_before, strike_before};
use ft_semantics::Status;
use ft_types::Program;
use ft_view::View;
use std::alloc::Global;

/// Runs a machine from its start under a plan.
pub(crate) fn run_machine<P: Program>(
    machine: &mut Machine,
    program: &P,
    plan: Plan,
    steps: u64,
    out: &mut [CellOutput],
) -> Filled
    requires spellable { IsSpellable (P.object program.now) }
    requires start { machine.old ≡ start (P.object program.now) }
    ensures takes { Takes (P.object program.now) plan.entry.strike plan.entry.wild.now steps result.taken machine.new.status result.count out.new }
    ensures same { length out.new ≡ length out.old }
{
    let mut wild = WildLeft::new(plan.wild);
    let before = steps_before(plan.strike, steps);
    let first = fill(machine, program, before, &mut wild, out, 0);
    if first.taken < before {
        return first;
    }
    if before == steps {
        return first;
    }
    if first.count >= out.len() {
        return first;
    }
    strike_before(machine, plan.strike, before);
    let second = fill(
        machine,
        program,
        steps - before,
        &mut wild,
        out,
        first.count,
    );
    Filled {
        taken: before + second.taken,
        count: second.count,
    }
}

/// The status of a run that took `taken` of `steps` steps: 0 if it is done, 1 if it is detected, 9 if it took them all,
/// and otherwise 14, since the array is full.
#[tactic(auto, using(crate::proofs::Ends::done_at, crate::proofs::Ends::detected_at, crate::proofs::Ends::cut_at, crate::proofs::Ends::full_at))]
pub(crate) fn end_of(status: Status, taken: u64, steps: u64) -> u32
    ensures ends { (count room : ℕ) → count ≤ room → taken ≤ steps → (status ≡ Status.Running → count < room → taken ≡ steps) → Ends result steps taken count room status }
    ensures malformed { result ≢ 7 }
    ensures refused { result ≢ 8 }
    ensures planned { result ≢ 2 }
    ensures memory { result ≢ 5 }
{
    match status {
        Status::Done => 0,
        Status::Detected => 1,
        Status::Running => { if taken == steps { 9 } else { 14 } }
    }
}

/// Checks a program and runs it.
fn run_program<P: Program>(
    alloc: Global,
    program: &P,
    plan: Plan,
    steps: u64,
    out: &mut [CellOutput],
) -> RunAnswer
    requires { IsSpellable (P.object program.now) }
    ensures runs { result.status ≢ 5 → result.status ≢ 8 → RunsInto (P.object program.now) plan.entry.strike plan.entry.wild.now steps result.status result.ran.steps result.ran.count out.new }
    ensures accepted { result.status ≢ 5 → result.status ≢ 8 → IsAccepted (P.object program.now) }
    ensures refused { result.status ≡ 8 → Tells result.status result.why (judged (refusal (P.object program.now))) }
    ensures other { result.status ≢ 7 }
    ensures planned { result.status ≢ 2 }
    ensures once { IsOnce result.ran }
    ensures unrefused { result.status ≢ 8 → result.why ≡ nothing_told }
    ensures unrun { (result.status ≡ 5) ⊎ (result.status ≡ 8) → result.ran ≡ not_begun }
    ensures kept { (result.status ≡ 5) ⊎ (result.status ≡ 8) → out.new ≡ out.old }
{
    match check_uncounted(alloc, program) {
        Ok(_) => {}
        Err(error) => return not_run(refuse(error)),
    }
    let Ok(mut machine) = Machine::new(alloc, program) else {
        return no_run(5);
    };
    let filled = run_machine(&mut machine, program, plan, steps, out);
    let status = end_of(machine.status(), filled.taken, steps);
    has_run(status, filled.taken, filled.count as u64)
}

/// Checks the object that bytes spell, and runs it under a plan.
fn run_bytes(
    alloc: Global,
    bytes: &[u8],
    plan: Plan,
    steps: u64,
    out: &mut [CellOutput],
) -> RunAnswer
    ensures runs { result.status ≢ 5 → result.status ≢ 7 → result.status ≢ 8 → (fault wild : List ℕ) → IsFault fault plan.entry.strike → AreAnswers wild plan.entry.wild.now →
        RunsFile bytes.now fault wild steps result.status result.ran.steps result.ran.count out.new }
    ensures malformed { result.status ≡ 7 → Tells result.status result.why (verdict_on bytes.now) }
    ensures refused { result.status ≡ 8 → Tells result.status result.why (verdict_on bytes.now) }
    ensures planned { result.status ≢ 2 }
    ensures once { IsOnce result.ran }
    ensures unrefused { result.status ≢ 7 → result.status ≢ 8 → result.why ≡ nothing_told }
    ensures unrun { (result.status ≡ 5) ⊎ (result.status ≡ 7) ⊎ (result.status ≡ 8) → result.ran ≡ not_begun }
    ensures kept { (result.status ≡ 5) ⊎ (result.status ≡ 7) ⊎ (result.status ≡ 8) → out.new ≡ out.old }
{
    match View::over(bytes) {
        Ok(view) => run_program(alloc, &view, plan, steps, out),
        Err(error) => not_run(Verdict {
            status: 7,
            why: told_error(error),
        }),
    }
}

/// The result of a run that was not started: a text of the plan is invalid, or memory ran out.
pub(crate) fn no_run(status: u32) -> RunAnswer
    ensures status { result.status ≡ status }
    ensures once { IsOnce result.ran }
    ensures unrefused { result.why ≡ nothing_told }
    ensures unrun { result.ran ≡ not_begun }
{
    not_run(unrefused(status))
}

/// Checks the object that bytes spell, and runs it from its start for at most `steps` steps, under the fault that
/// `fault` spells, such as `4:r1:6`, and with the answers to wild loads that `wild` spells, such as `5,stop`. An empty
/// text means none. The outputs go into the array. The status is 0 for a run that is done; 1 for one that is detected;
/// 9 for one that is still running after the steps; 14 if the array is full; 2 if a text is invalid; 7 or 8 for bytes
/// that are refused; or 5 if memory runs out.
pub fn run(
    alloc: Global,
    bytes: &[u8],
    fault: &[u8],
    wild: &[u8],
    steps: u64,
    out: &mut [CellOutput],
) -> RunAnswer
    ensures runs { result.status ≢ 2 → result.status ≢ 5 → result.status ≢ 7 → result.status ≢ 8 → RunsFile bytes.now fault.now wild.now steps result.status result.ran.steps result.ran.count out.new }
    ensures no_plan { result.status ≡ 2 → (strike : Option Fault) (answers : List Answer) → IsFault fault.now strike → AreAnswers wild.now answers → ⊥ }
    ensures malformed { result.status ≡ 7 → Tells result.status result.why (verdict_on bytes.now) }
    ensures refused { result.status ≡ 8 → Tells result.status result.why (verdict_on bytes.now) }
    ensures once { IsOnce result.ran }
    ensures unrefused { result.status ≢ 7 → result.status ≢ 8 → result.why ≡ nothing_told }
    ensures unrun { (result.status ≡ 2) ⊎ (result.status ≡ 5) ⊎ (result.status ≡ 7) ⊎ (result.status ≡ 8) → result.ran ≡ not_begun }
    ensures kept { (result.status ≡ 2) ⊎ (result.status ≡ 5) ⊎ (result.status ≡ 7) ⊎ (result.status ≡ 8) → out.new ≡ out.old }
{
    let Ok(strike) = read_fault(fault) else {
        return no_run(2);
    };
    match read_answers(alloc, wild) {
        Ok(answers) => {
            let plan = Plan {
                strike,
                wild: answers.as_slice(),
            };
            run_bytes(alloc, bytes, plan, steps, out)
        }
        Err(WildError::Form { at: _ }) => no_run(2),
        Err(WildError::NoMemory) => no_run(5),
    }
}
