//! The command `check`.
ghost use Rattle.std.specs.Prelude.{◌≡◌};
ghost use Rattle.ft_types.specs.Spellable.{IsSpellable};
ghost use Rattle.ft_tool.specs.Answers.{ChecksObject};
ghost use Rattle.ft_tool.specs.Endings.{Ends};

use crate::ending::{Ending, refuse_check};
use crate::over_object::ObjectCommand;
use ft_checker::check_uncounted;
use ft_edge::{Sink, put_line};
use ft_types::Program;
use std::alloc::Global;

/// Checks an object.
fn check_object<P: Program, K: Sink>(alloc: Global, program: &P, out: &mut K) -> Ending
    requires { IsSpellable (P.object program.now) }
    ensures { Ends result (ChecksObject (P.object program.now))
        (K.log out.old) (K.log out.new) ⊥ }
{
    match check_uncounted(alloc, program) {
        Ok(_) => match put_line(b"accepted\n", out) {
            Ok(()) => Ending::Done,
            Err(_) => Ending::WriteFailed,
        },
        Err(error) => refuse_check(error, out),
    }
}

/// The command that checks the object in a file.
#[derive(Drop)]
pub(crate) struct CheckCommand<'w> {
    pub object: &'w str,
}

impl<'w> ObjectCommand for CheckCommand<'w> {
    ghost use Rattle.std.specs.Prelude.{refl};
    ghost use Rattle.ft_command.specs.Commands.{Checks};
    ghost use Rattle.ft_tool.specs.Answers.{ChecksObject};

    ghost request = { λ c. Checks c.object.now };

    ghost file = { λ c. c.object.now };

    ghost answer = { λ c. ChecksObject };

    ghost is_over_file = { λ c. record { answers = λ told files script bytes a is h. (bytes, (is, h)); comes = λ told files. refl; loads = λ told files early asked asked' made. made } };

    fn file(&self) -> &str {
        self.object
    }

    fn over_object<P: Program, K: Sink>(&self, alloc: Global, program: &P, out: &mut K) -> Ending {
        check_object(alloc, program, out)
    }
}
