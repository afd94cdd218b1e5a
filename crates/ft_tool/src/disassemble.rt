//! The command `dis`.
ghost use Rattle.std.specs.Prelude.{◌≡◌, ◌≢◌};
ghost use Rattle.ft_types.specs.Spellable.{IsSpellable};
ghost use Rattle.ft_tool.specs.Answers.{DisassemblesObject};
ghost use Rattle.ft_tool.specs.Endings.{Ends};

use crate::ending::Ending;
use crate::over_object::ObjectCommand;
use ft_asm::disassemble;
use ft_edge::{Sink, put_line};
use ft_types::Program;
use std::alloc::Global;

/// Writes the assembly text of an object.
fn put_text<P: Program, K: Sink>(alloc: Global, program: &P, out: &mut K) -> Ending
    requires { IsSpellable (P.object program.now) }
    ensures { Ends result (DisassemblesObject (P.object program.now))
        (K.log out.old) (K.log out.new) ⊥ }
{
    let Ok(text) = disassemble(alloc, program) else {
        return Ending::NoMemory;
    };
    match put_line(text.as_slice(), out) {
        Ok(()) => Ending::Done,
        Err(_) => Ending::WriteFailed,
    }
}

/// The command that disassembles the object in a file.
#[derive(Drop)]
pub(crate) struct DisassembleCommand<'w> {
    pub object: &'w str,
}

impl<'w> ObjectCommand for DisassembleCommand<'w> {
    ghost use Rattle.std.specs.Prelude.{refl};
    ghost use Rattle.ft_command.specs.Commands.{Disassembles};
    ghost use Rattle.ft_tool.specs.Answers.{DisassemblesObject};

    ghost request = { λ c. Disassembles c.object.now };

    ghost file = { λ c. c.object.now };

    ghost answer = { λ c. DisassemblesObject };

    ghost is_over_file = { λ c. record { answers = λ told files script bytes a is h. (bytes, (is, h)); comes = λ told files. refl; loads = λ told files early asked asked' made. made } };

    fn file(&self) -> &str {
        self.object
    }

    fn over_object<P: Program, K: Sink>(&self, alloc: Global, program: &P, out: &mut K) -> Ending {
        put_text(alloc, program, out)
    }
}
