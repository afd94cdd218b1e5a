//! Runs that C continues across calls.
ghost use Rattle.std.specs.Prelude.{◌≡◌, ◌≢◌, None};
ghost use Rattle.ft_isa.specs.PlanText.{IsSiteText};
ghost use Rattle.ft_isa.specs.declared.plan.Site.{Site as Place};
ghost use Rattle.ft_c.specs.Handles.{BeginsAgain, GoesOnIn, IsNotStruckIn, IsStruckIn};
ghost use Rattle.ft_embed.specs.Outputs.{IsOnce};
ghost use Rattle.ft_embed.specs.Tasks.{IsOpened};
ghost use Rattle.ft_embed.specs.Verdicts.{Tells, nothing, verdict_on};

use crate::handle::{Handle, put, take};
use ft_embed::{CellOutput, Ran, Refused, Task, Verdict, unrefused};
use ft_isa::read_site;
use std::alloc::Global;

/// Begins a run and puts it into an empty handle.
fn open_into(alloc: Global, bytes: &[u8], machine: &mut Handle) -> Verdict
    requires { machine.old.task ≡ None }
    ensures opened { result.status ≡ 0 → IsOpened bytes.now machine.new.task }
    ensures refused { result.status ≢ 0 → result.status ≢ 5 → Tells result.status result.why (verdict_on bytes.now) }
    ensures unrefused { result.status ≢ 7 → result.status ≢ 8 → result.why ≡ nothing }
    ensures none { result.status ≢ 0 → machine.new.task ≡ None }
{
    let task = match Task::open(alloc, bytes) {
        Ok(task) => task,
        Err(verdict) => return verdict,
    };
    match Box::new(alloc, task) {
        Ok(task) => {
            put(machine, task);
            unrefused(0)
        }
        Err(_) => unrefused(5),
    }
}

/// Reports a verdict and returns its status.
fn tell(verdict: Verdict, why: &mut Refused) -> u32
    ensures status { result ≡ verdict.status }
    ensures why { why.new ≡ verdict.why }
{
    *why = verdict.why;
    verdict.status
}

/// Checks the object that bytes spell, and begins its run, which the handle holds until `talft_close`. Returns 0 on
/// success; 7 or 8 for bytes that are refused; 5 if memory runs out; or 17 for a handle that already holds a run.
/// Unless it returns 0, the handle is unchanged.
#[unsafe(no_mangle)]
pub extern "C" fn talft_open(
    alloc: Global,
    bytes: &[u8],
    machine: &mut Handle,
    why: &mut Refused,
) -> u32
    ensures opened { result ≡ 0 → IsOpened bytes.now machine.new.task }
    ensures refused { result ≢ 0 → result ≢ 5 → result ≢ 17 → Tells result why.new (verdict_on bytes.now) }
    ensures held { result ≡ 17 → machine.old.task ≢ None }
    ensures free { result ≢ 17 → machine.old.task ≡ None }
    ensures kept { result ≢ 0 → machine.new.task ≡ machine.old.task }
    ensures unrefused { result ≢ 7 → result ≢ 8 → why.new ≡ nothing }
{
    match take(alloc, machine) {
        Some(task) => {
            put(machine, task);
            tell(unrefused(17), why)
        }
        None => tell(open_into(alloc, bytes, machine), why),
    }
}

/// Takes at most `steps` steps of the run that a handle holds, and fewer if the run is done or detected, or the array
/// is full. The outputs of these steps go into the array. Returns 0 for a run that is done; 1 for one that is detected;
/// 9 if all steps were taken or the run has taken 2^64 - 1 in all; 14 if the array is full; or 17 for an empty handle.
#[unsafe(no_mangle)]
pub extern "C" fn talft_advance(
    alloc: Global,
    machine: &mut Handle,
    steps: u64,
    out: &mut [CellOutput],
    ran: &mut Ran,
) -> u32
    ensures went { result ≢ 17 → GoesOnIn machine.old.task machine.new.task result steps ran.new.steps ran.new.count out.new }
    ensures none { result ≡ 17 → machine.old.task ≡ None }
    ensures kept { result ≡ 17 → machine.new.task ≡ None }
    ensures once { result ≢ 17 → IsOnce ran.new }
    ensures same { result ≡ 17 → (ran.new ≡ ran.old) × (out.new ≡ out.old) }
{
    let Some(mut task) = take(alloc, machine) else {
        return 17;
    };
    let answer = task.advance(steps, out);
    *ran = answer.ran;
    put(machine, task);
    answer.status
}

/// Strikes the run that a handle holds, before its next step, for tests: the text names a site, such as `r1`, `d`,
/// `pcg` or `qv0`, and the word there becomes `value`. Returns 0 on success; 2 for a text that names no site; 18 if the
/// run was struck before or has stopped, or if the site does not exist; or 17 for an empty handle. Unless it returns 0,
/// the handle is unchanged.
#[unsafe(no_mangle)]
pub extern "C" fn talft_strike(alloc: Global, machine: &mut Handle, site: &[u8], value: u64) -> u32
    ensures struck { result ≡ 0 → IsStruckIn machine.old.task machine.new.task site.now value }
    ensures no_site { result ≡ 2 → (place : Place) → IsSiteText site.now place → ⊥ }
    ensures not_there { result ≡ 18 → IsNotStruckIn machine.old.task site.now }
    ensures none { result ≡ 17 → machine.old.task ≡ None }
    ensures kept { result ≢ 0 → machine.new.task ≡ machine.old.task }
    ensures status { result ≢ 2 → result ≢ 17 → result ≢ 18 → result ≡ 0 }
{
    let Some(place) = read_site(site) else {
        return 2;
    };
    let Some(mut task) = take(alloc, machine) else {
        return 17;
    };
    let struck = task.strike(place, value);
    put(machine, task);
    if struck { 0 } else { 18 }
}

/// Restarts the run that a handle holds, without a strike. Returns 0 on success; 5 if memory runs out; or 17 for an
/// empty handle. Unless it returns 0, the handle is unchanged.
#[unsafe(no_mangle)]
pub extern "C" fn talft_restart(alloc: Global, machine: &mut Handle) -> u32
    ensures again { result ≡ 0 → BeginsAgain machine.old.task machine.new.task }
    ensures none { result ≡ 17 → machine.old.task ≡ None }
    ensures kept { result ≢ 0 → machine.new.task ≡ machine.old.task }
    ensures status { result ≢ 5 → result ≢ 17 → result ≡ 0 }
{
    let Some(mut task) = take(alloc, machine) else {
        return 17;
    };
    let again = task.restart(alloc);
    put(machine, task);
    match again {
        Ok(()) => 0,
        Err(_) => 5,
    }
}

/// Frees the run that a handle holds, if any.
#[unsafe(no_mangle)]
pub extern "C" fn talft_close(alloc: Global, machine: &mut Handle)
    ensures { machine.new.task ≡ None }
{
    let _task = take(alloc, machine);
}
