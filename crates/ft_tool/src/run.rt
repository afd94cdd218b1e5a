//! The command `run`.
ghost use Rattle.std.specs.Prelude.{◌≡◌, ◌≢◌};
ghost use Rattle.ft_command.specs.Asked.{run_view};
ghost use Rattle.ft_types.specs.Spellable.{IsSpellable};
ghost use Rattle.ft_tool.specs.Answers.{RunsObject};
ghost use Rattle.ft_tool.specs.Endings.{Ends};

use crate::ending::{Ending, ending_of_run, refuse_check};
use crate::over_object::ObjectCommand;
use ft_checker::check_uncounted;
use ft_command::Run;
use ft_edge::Sink;
use ft_isa::Plan;
use ft_runs::Clean;
use ft_types::Program;
use std::alloc::Global;

/// Checks an object and runs it.
fn run_object<P: Program, K: Sink>(alloc: Global, program: &P, run: &Run, out: &mut K) -> Ending
    requires { IsSpellable (P.object program.now) }
    ensures { Ends result (RunsObject (run_view run.now) (P.object program.now))
        (K.log out.old) (K.log out.new) ⊥ }
{
    let checked = match check_uncounted(alloc, program) {
        Ok(checked) => checked,
        Err(error) => return refuse_check(error, out),
    };
    let Ok(clean) = Clean::start(alloc, &checked) else {
        return Ending::NoMemory;
    };
    let plan = Plan {
        strike: run.strike,
        wild: run.wild.as_slice(),
    };
    ending_of_run(ft_runs::run(clean, plan, run.steps, out))
}

/// The command that checks the object in a file and runs it.
#[derive(Drop)]
pub(crate) struct RunCommand<'w> {
    pub run: Run<'w>,
}

impl<'w> ObjectCommand for RunCommand<'w> {
    ghost use Rattle.std.specs.Prelude.{refl};
    ghost use Rattle.ft_command.specs.Asked.{run_view};
    ghost use Rattle.ft_command.specs.Commands.{Runs};
    ghost use Rattle.ft_tool.specs.Answers.{RunsObject};

    ghost request = { λ c. Runs (run_view c.run) };

    ghost file = { λ c. c.run.object.now };

    ghost answer = { λ c. RunsObject (run_view c.run) };

    ghost is_over_file = { λ c. record { answers = λ told files script bytes a is h. (bytes, (is, h)); comes = λ told files. refl; loads = λ told files early asked asked' made. made } };

    fn file(&self) -> &str {
        self.run.object
    }

    fn over_object<P: Program, K: Sink>(&self, alloc: Global, program: &P, out: &mut K) -> Ending {
        run_object(alloc, program, &self.run, out)
    }
}
