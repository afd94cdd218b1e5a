//! Runs that continue across calls.
ghost use Rattle.std.specs.Prelude.{◌≡◌, ◌≢◌, ◌≤◌, ◌+◌, [], IfOk, IfErr, OnOk, OnErr, None, Some, true, false};
ghost use Rattle.ft_types.specs.Spellable.{IsSpellable};
ghost use Rattle.ft_typing.specs.Accepted.{IsAccepted, refusal};
ghost use Rattle.ft_format.specs.Broken.{object_of};
ghost use Rattle.ft_semantics.specs.Strike.{is_there};
ghost use Rattle.ft_semantics.specs.Run.{state_after};
ghost use Rattle.ft_embed.specs.Outputs.{IsOnce};
ghost use Rattle.ft_embed.specs.Tasks.{IsLimit, WentOn};
ghost use Rattle.ft_embed.specs.Verdicts.{IsAcceptedFile, Tells, judged, nothing, verdict_on};

use crate::answer::{RunAnswer, has_run};
use crate::checking::refuse;
use crate::filling::{CellOutput, fill};
use crate::refused::told_error;
use crate::running::end_of;
use crate::verdict::{Verdict, unrefused};
use ft_checker::check_uncounted;
use ft_isa::{NoMemory, Site, Strike};
use ft_machine::{Machine, WildLeft};
use ft_types::{Object, Program, copy_object};
use ft_view::View;
use std::alloc::Global;
use std::marker::Model;

/// The run of an accepted object. It continues across calls, and may be struck once. Contracts see it as the object,
/// the strike, if any, and the number of steps taken.
#[derive(Drop)]
pub struct Task {
    object: Object,
    machine: Machine,
    strike: Option<Strike>,
    taken: u64,
}

impl Model for Task {
    ghost use Rattle.ft_embed.specs.Tasks.{IsTask, TaskRun};

    ghost Value = { TaskRun };

    ghost view = { λ t. record { object = t.object; strike = t.strike; taken = t.taken } };

    ghost invariant = { λ t. IsTask (record { object = t.object; strike = t.strike; taken = t.taken }) t.machine };
}

/// How many of `steps` further steps a run may take after `taken`: all, unless the count would overflow.
fn limit(steps: u64, taken: u64) -> u64
    ensures within { result + taken ≤ 18446744073709551615 }
    ensures limit { IsLimit steps taken result }
{
    let left = u64::MAX - taken;
    if steps <= left { steps } else { left }
}

impl Task {
    /// The run of a program before its first step, if the program is accepted; otherwise the verdict.
    fn of_program<P: Program>(alloc: Global, program: &P) -> Result<Task, Verdict>
        requires { IsSpellable (P.object program.now) }
        ensures ok { IfOk result (λ t. t ≡ record { object = P.object program.now; strike = None; taken = 0 }) }
        ensures accepted { IfOk result (λ t. IsAccepted (P.object program.now)) }
        ensures err { IfErr result (λ v. v.status ≢ 5 → Tells v.status v.why (judged (refusal (P.object program.now)))) }
        ensures some { IfErr result (λ v. v.status ≢ 0) }
        ensures unrefused { IfErr result (λ v. v.status ≢ 7 → v.status ≢ 8 → v.why ≡ nothing) }
    {
        match check_uncounted(alloc, program) {
            Ok(_) => {}
            Err(error) => return Err(refuse(error)),
        }
        let Ok(object) = copy_object(alloc, program) else {
            return Err(unrefused(5));
        };
        let Ok(machine) = Machine::new(alloc, &object) else {
            return Err(unrefused(5));
        };
        Ok(Task {
            object,
            machine,
            strike: None,
            taken: 0,
        })
    }

    /// The run, before its first step, of the object that bytes spell, if the object is accepted; otherwise the
    /// verdict. The bytes are copied.
    pub fn open(alloc: Global, bytes: &[u8]) -> Result<Task, Verdict>
        ensures ok { IfOk result (λ t. t ≡ record { object = object_of bytes.now; strike = None; taken = 0 }) }
        ensures file { IfOk result (λ t. IsAcceptedFile bytes.now) }
        ensures err { IfErr result (λ v. v.status ≢ 5 → Tells v.status v.why (verdict_on bytes.now)) }
        ensures some { IfErr result (λ v. v.status ≢ 0) }
        ensures unrefused { IfErr result (λ v. v.status ≢ 7 → v.status ≢ 8 → v.why ≡ nothing) }
    {
        match View::over(bytes) {
            Ok(view) => Task::of_program(alloc, &view),
            Err(error) => Err(Verdict {
                status: 7,
                why: told_error(error),
            }),
        }
    }

    /// Takes at most `steps` steps, and fewer if the run is done or detected, or the array is full. Puts their outputs
    /// into the array. The status is 0 for a run that is done, 1 for one that is detected, 9 if all steps were taken or
    /// the run has taken 2^64 - 1 in all, and otherwise 14, since the array is full.
    pub fn advance(&mut self, steps: u64, out: &mut [CellOutput]) -> RunAnswer
        ensures went { WentOn self.old self.new result.status steps result.ran.steps result.ran.count out.new }
        ensures once { IsOnce result.ran }
    {
        let most = limit(steps, self.taken);
        let mut wild = WildLeft::new(&[]);
        let filled = fill(&mut self.machine, &self.object, most, &mut wild, out, 0);
        self.taken += filled.taken;
        let status = end_of(self.machine.status(), filled.taken, most);
        has_run(status, filled.taken, filled.count as u64)
    }

    /// Strikes a site before the next step: the word there becomes `value`. Returns `false`, and changes nothing, if
    /// the run was struck before or has stopped, or if the site does not exist.
    pub fn strike(&mut self, site: Site, value: u64) -> bool
        ensures struck { result ≡ true → self.new ≡ record { object = self.old.object; strike = Some (record { step = self.old.taken; site = site; value = value }); taken = self.old.taken } }
        ensures first { result ≡ true → self.old.strike ≡ None }
        ensures there { result ≡ true → is_there (state_after self.old.object None [] self.old.taken) site ≡ true }
        ensures kept { result ≡ false → self.new ≡ self.old }
        ensures not_there { result ≡ false → self.old.strike ≡ None → is_there (state_after self.old.object None [] self.old.taken) site ≡ false }
    {
        if self.strike.is_some() {
            return false;
        }
        let step = self.taken;
        let struck = self.machine.strike(site, value);
        if struck {
            self.strike = Some(Strike { step, site, value });
            return true;
        }
        false
    }

    /// Restarts the run, without a strike. If memory runs out, the run is unchanged.
    pub fn restart(&mut self, alloc: Global) -> Result<(), NoMemory>
        ensures ok { OnOk result (self.new ≡ record { object = self.old.object; strike = None; taken = 0 }) }
        ensures err { OnErr result (self.new ≡ self.old) }
    {
        let machine = Machine::new(alloc, &self.object)?;
        self.machine = machine;
        self.strike = None;
        self.taken = 0;
        Ok(())
    }
}
