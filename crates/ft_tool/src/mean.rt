//! The command `mean`.
ghost use Rattle.std.specs.Prelude.{◌≡◌, ◌≢◌};
ghost use Rattle.ft_tool.specs.Endings.{Ends};
ghost use Rattle.ft_tool.specs.Sources.{OverText, MeansProgram};

use crate::ending::{Ending, refuse_source};
use crate::load::SOURCE_LIMIT;
use crate::over_file::FileCommand;
use ft_command::Meaning;
use ft_edge::Sink;
use ft_meaning::{MeanEnd, mean};
use ft_scope::resolve;
use ft_syntax::{SourceError, parse};
use std::alloc::Global;

/// Writes the meaning of a source.
fn mean_text<K: Sink>(alloc: Global, text: &[u8], turns: u64, out: &mut K) -> Ending
    ensures { Ends result (OverText (MeansProgram turns) text.now)
        (K.log out.old) (K.log out.new) ⊥ }
{
    let tree = match parse(alloc, text) {
        Ok(tree) => tree,
        Err(error) => return refuse_source(error, out),
    };
    let program = match resolve(alloc, tree) {
        Ok(program) => program,
        Err(error) => return refuse_source(error, out),
    };
    match mean(alloc, &program, turns, out) {
        MeanEnd::Ended => Ending::Done,
        MeanEnd::Cut => Ending::OutOfSteps,
        MeanEnd::WriteFault => Ending::WriteFailed,
        MeanEnd::NoMemory => Ending::NoMemory,
    }
}

/// The command that writes the meaning of the source in a file.
#[derive(Drop)]
pub(crate) struct MeanCommand<'w> {
    pub asked: Meaning<'w>,
}

impl<'w> FileCommand for MeanCommand<'w> {
    ghost use Rattle.std.specs.Prelude.{refl};
    ghost use Rattle.ft_command.specs.Commands.{Means};
    ghost use Rattle.ft_command.specs.Asked.{meaning_view};
    ghost use Rattle.ft_tool.specs.Sources.{OverText, MeansProgram};

    ghost request = { λ c. Means (meaning_view c.asked) };

    ghost file = { λ c. c.asked.source.now };

    ghost limit = { λ c. 1048576 };

    ghost answer = { λ c. OverText (MeansProgram c.asked.turns) };

    ghost is_over_file = { λ c. record { answers = λ told files script bytes a is h. (bytes, (is, h)); comes = λ told files. refl; loads = λ told files early asked asked' made. made } };

    fn file(&self) -> &str {
        self.asked.source
    }

    fn limit(&self) -> usize {
        SOURCE_LIMIT
    }

    fn over_bytes<K: Sink>(&self, alloc: Global, bytes: &[u8], out: &mut K) -> Ending {
        mean_text(alloc, bytes, self.asked.turns, out)
    }

    fn refuse_long<K: Sink>(&self, out: &mut K) -> Ending {
        refuse_source(SourceError::TooLong, out)
    }
}
