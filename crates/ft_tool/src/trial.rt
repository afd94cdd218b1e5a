//! The command `trial`.
ghost use Rattle.std.specs.Prelude.{◌≡◌, ◌≢◌};
ghost use Rattle.ft_command.specs.Asked.{run_view};
ghost use Rattle.ft_types.specs.Spellable.{IsSpellable};
ghost use Rattle.ft_tool.specs.Answers.{TrialsObject};
ghost use Rattle.ft_tool.specs.Endings.{Ends};

use crate::ending::{Ending, ending_of_run};
use crate::over_object::ObjectCommand;
use ft_command::Run;
use ft_edge::Sink;
use ft_isa::Plan;
use ft_machine::{Machine, drive};
use ft_types::Program;
use std::alloc::Global;

/// Runs an object without checking it.
pub(crate) fn trial_object<P: Program, K: Sink>(
    alloc: Global,
    program: &P,
    run: &Run,
    out: &mut K,
) -> Ending
    requires { IsSpellable (P.object program.now) }
    ensures { Ends result (TrialsObject (run_view run.now) (P.object program.now))
        (K.log out.old) (K.log out.new) ⊥ }
{
    let mut machine = match Machine::new(alloc, program) {
        Ok(machine) => machine,
        Err(_) => return Ending::NoMemory,
    };
    let plan = Plan {
        strike: run.strike,
        wild: run.wild.as_slice(),
    };
    ending_of_run(drive(&mut machine, program, plan, run.steps, out))
}

/// The command that runs the object in a file without checking it.
#[derive(Drop)]
pub(crate) struct TrialCommand<'w> {
    pub run: Run<'w>,
}

impl<'w> ObjectCommand for TrialCommand<'w> {
    ghost use Rattle.std.specs.Prelude.{refl};
    ghost use Rattle.ft_command.specs.Asked.{run_view};
    ghost use Rattle.ft_command.specs.Commands.{Trials};
    ghost use Rattle.ft_tool.specs.Answers.{TrialsObject};

    ghost request = { λ c. Trials (run_view c.run) };

    ghost file = { λ c. c.run.object.now };

    ghost answer = { λ c. TrialsObject (run_view c.run) };

    ghost is_over_file = { λ c. record { answers = λ told files script bytes a is h. (bytes, (is, h)); comes = λ told files. refl; loads = λ told files early asked asked' made. made } };

    fn file(&self) -> &str {
        self.run.object
    }

    fn over_object<P: Program, K: Sink>(&self, alloc: Global, program: &P, out: &mut K) -> Ending {
        trial_object(alloc, program, &self.run, out)
    }
}
