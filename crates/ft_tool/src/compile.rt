//! The command `compile`.
ghost use Rattle.std.specs.Prelude.{◌≡◌, ◌≢◌};
ghost use Rattle.ft_tool.specs.Endings.{Ends};
ghost use Rattle.ft_tool.specs.Sources.{OverText, CompilesProgram};

use crate::ending::{Ending, put_object, refuse_source};
use crate::load::SOURCE_LIMIT;
use crate::over_file::FileCommand;
use ft_compile::compile;
use ft_edge::Sink;
use ft_syntax::SourceError;
use std::alloc::Global;

/// Compiles a source and writes its object.
fn compile_text<K: Sink>(alloc: Global, text: &[u8], out: &mut K) -> Ending
    ensures { Ends result (OverText CompilesProgram text.now)
        (K.log out.old) (K.log out.new) ⊥ }
{
    match compile(alloc, text) {
        Ok(object) => put_object(alloc, &object, out),
        Err(error) => refuse_source(error, out),
    }
}

/// The command that compiles the source in a file.
#[derive(Drop)]
pub(crate) struct CompileCommand<'w> {
    pub source: &'w str,
}

impl<'w> FileCommand for CompileCommand<'w> {
    ghost use Rattle.std.specs.Prelude.{refl};
    ghost use Rattle.ft_command.specs.Commands.{Compiles};
    ghost use Rattle.ft_tool.specs.Sources.{OverText, CompilesProgram};

    ghost request = { λ c. Compiles c.source.now };

    ghost file = { λ c. c.source.now };

    ghost limit = { λ c. 1048576 };

    ghost answer = { λ c. OverText CompilesProgram };

    ghost is_over_file = { λ c. record { answers = λ told files script bytes a is h. (bytes, (is, h)); comes = λ told files. refl; loads = λ told files early asked asked' made. made } };

    fn file(&self) -> &str {
        self.source
    }

    fn limit(&self) -> usize {
        SOURCE_LIMIT
    }

    fn over_bytes<K: Sink>(&self, alloc: Global, bytes: &[u8], out: &mut K) -> Ending {
        compile_text(alloc, bytes, out)
    }

    fn refuse_long<K: Sink>(&self, out: &mut K) -> Ending {
        refuse_source(SourceError::TooLong, out)
    }
}
