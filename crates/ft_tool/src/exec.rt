//! The command `exec`.
ghost use Rattle.std.specs.Prelude.{◌≡◌, ◌≢◌, [], ◌∷◌, None};
ghost use Rattle.ft_semantics.specs.Run.{run};
ghost use Rattle.ft_typing.specs.Accepted.{IsAccepted};
ghost use Rattle.ft_types.specs.Spellable.{IsSpellable};
ghost use Rattle.ft_command.specs.Asked.{execution_view};
ghost use Rattle.ft_tool.specs.Endings.{Ends};
ghost use Rattle.ft_tool.specs.Replies.{ran};
ghost use Rattle.ft_tool.specs.Sources.{OverText, ExecutesProgram};

use crate::ending::{Ending, ending_of_run, refuse_source};
use crate::load::SOURCE_LIMIT;
use crate::over_file::FileCommand;
use ft_checker::Checked;
use ft_command::Execution;
use ft_compile::compile;
use ft_edge::Sink;
use ft_isa::Plan;
use ft_runs::Clean;
use ft_syntax::SourceError;
use ft_types::Object;
use std::alloc::Global;

/// Runs an accepted object without a strike and without answers to wild loads.
fn run_accepted<K: Sink>(alloc: Global, object: &Object, steps: u64, out: &mut K) -> Ending
    requires spellable { IsSpellable object.now }
    requires accepted { IsAccepted object.now }
    ensures { Ends result (λ a. a ≡ ran object.now (run object.now None [] steps))
        (K.log out.old) (K.log out.new) ⊥ }
{
    let checked = Checked::of_accepted(object);
    let Ok(clean) = Clean::start(alloc, &checked) else {
        return Ending::NoMemory;
    };
    let plan = Plan {
        strike: None,
        wild: &[],
    };
    ending_of_run(ft_runs::run(clean, plan, steps, out))
}

/// Compiles a source and runs its object.
fn exec_text<K: Sink>(alloc: Global, text: &[u8], steps: u64, out: &mut K) -> Ending
    ensures { Ends result (OverText (ExecutesProgram steps) text.now)
        (K.log out.old) (K.log out.new) ⊥ }
{
    match compile(alloc, text) {
        Ok(object) => run_accepted(alloc, &object, steps, out),
        Err(error) => refuse_source(error, out),
    }
}

/// The command that compiles the source in a file and runs its object.
#[derive(Drop)]
pub(crate) struct ExecCommand<'w> {
    pub asked: Execution<'w>,
}

impl<'w> FileCommand for ExecCommand<'w> {
    ghost use Rattle.std.specs.Prelude.{refl};
    ghost use Rattle.ft_command.specs.Commands.{Executes};
    ghost use Rattle.ft_command.specs.Asked.{execution_view};
    ghost use Rattle.ft_tool.specs.Sources.{OverText, ExecutesProgram};

    ghost request = { λ c. Executes (execution_view c.asked) };

    ghost file = { λ c. c.asked.source.now };

    ghost limit = { λ c. 1048576 };

    ghost answer = { λ c. OverText (ExecutesProgram c.asked.steps) };

    ghost is_over_file = { λ c. record { answers = λ told files script bytes a is h. (bytes, (is, h)); comes = λ told files. refl; loads = λ told files early asked asked' made. made } };

    fn file(&self) -> &str {
        self.asked.source
    }

    fn limit(&self) -> usize {
        SOURCE_LIMIT
    }

    fn over_bytes<K: Sink>(&self, alloc: Global, bytes: &[u8], out: &mut K) -> Ending {
        exec_text(alloc, bytes, self.asked.steps, out)
    }

    fn refuse_long<K: Sink>(&self, out: &mut K) -> Ending {
        refuse_source(SourceError::TooLong, out)
    }
}
