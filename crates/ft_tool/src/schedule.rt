//! The command `schedule`.
ghost use Rattle.std.specs.Prelude.{◌≡◌, ◌≢◌};
ghost use Rattle.ft_types.specs.Spellable.{IsSpellable};
ghost use Rattle.ft_tool.specs.Answers.{SchedulesAccepted, SchedulesObject};
ghost use Rattle.ft_tool.specs.Endings.{Ends};

use crate::ending::{Ending, put_object, refuse_check};
use crate::over_object::ObjectCommand;
use ft_checker::{Checked, check_uncounted};
use ft_edge::Sink;
use ft_sched::schedule;
use ft_types::Program;
use std::alloc::Global;

/// Writes the schedule of an accepted object.
fn put_schedule<'a, P: Program, K: Sink>(
    alloc: Global,
    checked: &Checked<'a, P>,
    out: &mut K,
) -> Ending
    requires { IsSpellable (P.object checked.now) }
    ensures { Ends result (SchedulesAccepted (P.object checked.now))
        (K.log out.old) (K.log out.new) ⊥ }
{
    match schedule(alloc, checked) {
        Ok(object) => put_object(alloc, &object, out),
        Err(_) => Ending::NoMemory,
    }
}

/// Checks an object and writes its schedule.
fn schedule_object<P: Program, K: Sink>(alloc: Global, program: &P, out: &mut K) -> Ending
    requires { IsSpellable (P.object program.now) }
    ensures { Ends result (SchedulesObject (P.object program.now))
        (K.log out.old) (K.log out.new) ⊥ }
{
    match check_uncounted(alloc, program) {
        Ok(checked) => put_schedule(alloc, &checked, out),
        Err(error) => refuse_check(error, out),
    }
}

/// The command that checks the object in a file and writes its schedule.
#[derive(Drop)]
pub(crate) struct ScheduleCommand<'w> {
    pub object: &'w str,
}

impl<'w> ObjectCommand for ScheduleCommand<'w> {
    ghost use Rattle.std.specs.Prelude.{refl};
    ghost use Rattle.ft_command.specs.Commands.{Schedules};
    ghost use Rattle.ft_tool.specs.Answers.{SchedulesObject};

    ghost request = { λ c. Schedules c.object.now };

    ghost file = { λ c. c.object.now };

    ghost answer = { λ c. SchedulesObject };

    ghost is_over_file = { λ c. record { answers = λ told files script bytes a is h. (bytes, (is, h)); comes = λ told files. refl; loads = λ told files early asked asked' made. made } };

    fn file(&self) -> &str {
        self.object
    }

    fn over_object<P: Program, K: Sink>(&self, alloc: Global, program: &P, out: &mut K) -> Ending {
        schedule_object(alloc, program, out)
    }
}
