//! Calls on the bytes of an object.
ghost use Rattle.std.specs.Prelude.{◌≡◌, ◌≢◌, ◌⊎◌, List, Option};
ghost use Rattle.ft_isa.specs.declared.plan.Strike.{Strike as Fault};
ghost use Rattle.ft_isa.specs.declared.plan.Wild.{Wild as Answer};
ghost use Rattle.ft_embed.specs.Cells.{HasNoCell};
ghost use Rattle.ft_embed.specs.Outputs.{IsOnce, RunsFile, not_begun};
ghost use Rattle.ft_embed.specs.Plans.{AreAnswers, IsFault};
ghost use Rattle.ft_embed.specs.Recoveries.{RecoversFile};
ghost use Rattle.ft_embed.specs.Texts.{Given, IsMalformed, IsNameOf, IsScheduleOfFile, IsUpgraded};
ghost use Rattle.ft_embed.specs.Verdicts.{IsAcceptedFile, Tells, nothing, verdict_on};

use ft_embed::{
    CellOutput, Ran, Refused, judge, name_into, recover, run, schedule_into, upgrade_into,
};
use std::alloc::Global;

/// Checks the object that bytes spell. Returns 0 for an accepted object; 7 for bytes that spell no object, with the
/// first rule that they break; 8 for an object that is not accepted, with its refusal; or 5 if memory runs out.
#[unsafe(no_mangle)]
pub extern "C" fn talft_check(alloc: Global, bytes: &[u8], why: &mut Refused) -> u32
    ensures verdict { result ≢ 5 → Tells result why.new (verdict_on bytes.now) }
    ensures accepted { result ≡ 0 → IsAcceptedFile bytes.now }
    ensures unrefused { result ≢ 7 → result ≢ 8 → why.new ≡ nothing }
{
    let verdict = judge(alloc, bytes);
    *why = verdict.why;
    verdict.status
}

/// Checks the object that bytes spell, and runs it from its start for at most `steps` steps, under the fault that
/// `fault` spells, such as `4:r1:6`, and with the answers to wild loads that `wild` spells, such as `5,stop`. An empty
/// text means none. The outputs go into the array. Returns 0 for a run that is done; 1 for one that is detected; 9 for
/// one that is still running after the steps; 14 if the array is full; 2 if a text is invalid; 7 or 8 for bytes that
/// are refused; or 5 if memory runs out.
#[unsafe(no_mangle)]
pub extern "C" fn talft_run(
    alloc: Global,
    bytes: &[u8],
    fault: &[u8],
    wild: &[u8],
    steps: u64,
    out: &mut [CellOutput],
    ran: &mut Ran,
    why: &mut Refused,
) -> u32
    ensures runs { result ≢ 2 → result ≢ 5 → result ≢ 7 → result ≢ 8 → RunsFile bytes.now fault.now wild.now steps result ran.new.steps ran.new.count out.new }
    ensures no_plan { result ≡ 2 → (strike : Option Fault) (answers : List Answer) → IsFault fault.now strike → AreAnswers wild.now answers → ⊥ }
    ensures malformed { result ≡ 7 → Tells result why.new (verdict_on bytes.now) }
    ensures refused { result ≡ 8 → Tells result why.new (verdict_on bytes.now) }
    ensures once { IsOnce ran.new }
    ensures unrefused { result ≢ 7 → result ≢ 8 → why.new ≡ nothing }
    ensures unrun { (result ≡ 2) ⊎ (result ≡ 5) ⊎ (result ≡ 7) ⊎ (result ≡ 8) → ran.new ≡ not_begun }
    ensures kept { (result ≡ 2) ⊎ (result ≡ 5) ⊎ (result ≡ 7) ⊎ (result ≡ 8) → out.new ≡ out.old }
{
    let answer = run(alloc, bytes, fault, wild, steps, out);
    *ran = answer.ran;
    *why = answer.why;
    answer.status
}

/// Checks the object that bytes spell, and runs it as `talft_run` does. If a fault is detected, it runs the object
/// again without the fault, and the new outputs replace the first ones. So the outputs and the status are those of the
/// run without a fault. Returns 0, 9, 14, 2, 7, 8 or 5, as `talft_run` does.
#[unsafe(no_mangle)]
pub extern "C" fn talft_recover(
    alloc: Global,
    bytes: &[u8],
    fault: &[u8],
    wild: &[u8],
    steps: u64,
    out: &mut [CellOutput],
    ran: &mut Ran,
    why: &mut Refused,
) -> u32
    ensures recovers { result ≢ 2 → result ≢ 5 → result ≢ 7 → result ≢ 8 → RecoversFile bytes.now fault.now wild.now steps result ran.new.steps ran.new.count ran.new.restarts ran.new.again out.new }
    ensures no_plan { result ≡ 2 → (strike : Option Fault) (answers : List Answer) → IsFault fault.now strike → AreAnswers wild.now answers → ⊥ }
    ensures malformed { result ≡ 7 → Tells result why.new (verdict_on bytes.now) }
    ensures refused { result ≡ 8 → Tells result why.new (verdict_on bytes.now) }
    ensures unrefused { result ≢ 7 → result ≢ 8 → why.new ≡ nothing }
    ensures unrun { (result ≡ 2) ⊎ (result ≡ 5) ⊎ (result ≡ 7) ⊎ (result ≡ 8) → ran.new ≡ not_begun }
    ensures kept { (result ≡ 2) ⊎ (result ≡ 5) ⊎ (result ≡ 7) ⊎ (result ≡ 8) → out.new ≡ out.old }
{
    let answer = recover(alloc, bytes, fault, wild, steps, out);
    *ran = answer.ran;
    *why = answer.why;
    answer.status
}

/// Writes the object that bytes spell, in version 2 of the format. Returns 0 on success; 15 if the object does not fit;
/// 7 for bytes that spell no object; or 5 if memory runs out.
#[unsafe(no_mangle)]
pub extern "C" fn talft_upgrade(
    alloc: Global,
    bytes: &[u8],
    out: &mut [u8],
    made: &mut usize,
    why: &mut Refused,
) -> u32
    ensures given { result ≢ 5 → result ≢ 7 → Given (IsUpgraded bytes.now) out.old out.new made.new result }
    ensures malformed { result ≡ 7 → IsMalformed bytes.now why.new }
    ensures kept { result ≢ 0 → out.new ≡ out.old }
    ensures unmade { result ≢ 0 → result ≢ 15 → made.new ≡ 0 }
    ensures unrefused { result ≢ 7 → why.new ≡ nothing }
{
    let written = upgrade_into(alloc, bytes, out);
    *made = written.made;
    *why = written.why;
    written.status
}

/// Writes the schedule of the object that bytes spell, in version 2 of the format. Returns 0 on success; 15 if the
/// schedule does not fit; 7 or 8 for bytes that are refused; or 5 if memory runs out.
#[unsafe(no_mangle)]
pub extern "C" fn talft_schedule(
    alloc: Global,
    bytes: &[u8],
    out: &mut [u8],
    made: &mut usize,
    why: &mut Refused,
) -> u32
    ensures given { result ≢ 5 → result ≢ 7 → result ≢ 8 → Given (IsScheduleOfFile bytes.now) out.old out.new made.new result }
    ensures malformed { result ≡ 7 → Tells result why.new (verdict_on bytes.now) }
    ensures refused { result ≡ 8 → Tells result why.new (verdict_on bytes.now) }
    ensures kept { result ≢ 0 → out.new ≡ out.old }
    ensures unmade { result ≢ 0 → result ≢ 15 → made.new ≡ 0 }
    ensures unrefused { result ≢ 7 → result ≢ 8 → why.new ≡ nothing }
{
    let written = schedule_into(alloc, bytes, out);
    *made = written.made;
    *why = written.why;
    written.status
}

/// Writes the name of a cell of the object that bytes spell. Returns 0 on success; 15 if the name does not fit; 7 for
/// bytes that spell no object; or 16 if there is no such cell.
#[unsafe(no_mangle)]
pub extern "C" fn talft_name(
    bytes: &[u8],
    cell: u32,
    out: &mut [u8],
    made: &mut usize,
    why: &mut Refused,
) -> u32
    ensures given { result ≢ 7 → result ≢ 16 → Given (IsNameOf bytes.now cell) out.old out.new made.new result }
    ensures malformed { result ≡ 7 → IsMalformed bytes.now why.new }
    ensures none { result ≡ 16 → HasNoCell bytes.now cell }
    ensures kept { result ≢ 0 → out.new ≡ out.old }
    ensures unmade { result ≢ 0 → result ≢ 15 → made.new ≡ 0 }
    ensures unrefused { result ≢ 7 → why.new ≡ nothing }
{
    let written = name_into(bytes, cell, out);
    *made = written.made;
    *why = written.why;
    written.status
}
