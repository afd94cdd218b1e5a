//! The command `asm`.
ghost use Rattle.std.specs.Prelude.{◌≡◌, ◌≢◌};
ghost use Rattle.ft_tool.specs.Answers.{OverAssembly};
ghost use Rattle.ft_tool.specs.Endings.{Ends};

use crate::ending::{Ending, put_spelling, refuse_text};
use crate::load::TEXT_LIMIT;
use crate::over_file::FileCommand;
use ft_asm::{AsmError, assemble_bytes};
use ft_edge::Sink;
use std::alloc::Global;

/// Assembles a text and writes its object.
fn assemble_text<K: Sink>(alloc: Global, text: &[u8], out: &mut K) -> Ending
    ensures { Ends result (OverAssembly text.now)
        (K.log out.old) (K.log out.new) ⊥ }
{
    match assemble_bytes(alloc, text) {
        Ok(bytes) => put_spelling(bytes.as_slice(), out),
        Err(error) => refuse_text(error, out),
    }
}

/// The command that assembles the text in a file.
#[derive(Drop)]
pub(crate) struct AssembleCommand<'w> {
    pub text: &'w str,
}

impl<'w> FileCommand for AssembleCommand<'w> {
    ghost use Rattle.std.specs.Prelude.{refl};
    ghost use Rattle.ft_command.specs.Commands.{Assembles};
    ghost use Rattle.ft_tool.specs.Answers.{OverAssembly};

    ghost request = { λ c. Assembles c.text.now };

    ghost file = { λ c. c.text.now };

    ghost limit = { λ c. 134217728 };

    ghost answer = { λ c. OverAssembly };

    ghost is_over_file = { λ c. record { answers = λ told files script bytes a is h. (bytes, (is, h)); comes = λ told files. refl; loads = λ told files early asked asked' made. made } };

    fn file(&self) -> &str {
        self.text
    }

    fn limit(&self) -> usize {
        TEXT_LIMIT
    }

    fn over_bytes<K: Sink>(&self, alloc: Global, bytes: &[u8], out: &mut K) -> Ending {
        assemble_text(alloc, bytes, out)
    }

    fn refuse_long<K: Sink>(&self, out: &mut K) -> Ending {
        refuse_text(AsmError::TooLong, out)
    }
}
