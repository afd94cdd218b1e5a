//! Commands on the object in one file, which is read in place.
ghost use Rattle.std.specs.Prelude.{List, ℕ, Option};
ghost use Rattle.ft_tool.specs.Does.{Does};
ghost use Rattle.ft_tool.specs.Known.{ForFiles, revealing};

use crate::ending::{Ending, refuse_bytes};
use crate::load::OBJECT_LIMIT;
use crate::over_file::{FileCommand, over_file};
use ft_edge::{Shelf, Sink};
use ft_object::ObjectError;
use ft_types::Program;
use ft_view::View;
use std::alloc::Global;

/// A command on the object in one file.
pub(crate) trait ObjectCommand {
    ghost use Rattle.std.specs.Prelude.{◌≡◌, ◌≢◌};
    ghost use Rattle.ft_types.specs.declared.object.Object.{Object};
    ghost use Rattle.ft_types.specs.Spellable.{IsSpellable};
    ghost use Rattle.ft_command.specs.Options.{Word};
    ghost use Rattle.ft_command.specs.Commands.{Request};
    ghost use Rattle.ft_tool.specs.Replies.{Answer};
    ghost use Rattle.ft_tool.specs.Objects.{OverBytes};
    ghost use Rattle.ft_tool.specs.Endings.{Ends};
    ghost use Rattle.ft_tool.specs.Does.{IsOverFile};

    // The request that it performs.
    ghost request: { Self → Request };

    // The name of its file.
    ghost file: { Self → Word };

    // The answer for the object that the file's bytes spell.
    ghost answer: { Self → Object → Answer → Type 0 };

    /// The name of its file.
    fn file(&self) -> &str
        ensures { result.now ≡ file self.now };

    /// Writes the answer for the object.
    fn over_object<P: Program, K: Sink>(&self, alloc: Global, program: &P, out: &mut K) -> Ending
        requires { IsSpellable (P.object program.now) }
        ensures { Ends result (answer self.now (P.object program.now))
            (K.log out.old) (K.log out.new) ⊥ };

    // An answer for this file's bytes answers the request, which loads no other file.
    ghost is_over_file: { (c : Self) → IsOverFile (request c) (file c) 67108864 (OverBytes (answer c)) };
}

/// A command on the object in one file, as a command on the file.
#[derive(Drop)]
pub(crate) struct OverObject<C> {
    pub command: C,
}

impl<C: ObjectCommand> FileCommand for OverObject<C> {
    ghost use Rattle.ft_tool.specs.Objects.{OverBytes};

    ghost request = { λ c. C.request c.command };

    ghost file = { λ c. C.file c.command };

    ghost limit = { λ c. 67108864 };

    ghost answer = { λ c. OverBytes (C.answer c.command) };

    ghost is_over_file = { λ c. C.is_over_file c.command };

    fn file(&self) -> &str {
        self.command.file()
    }

    fn limit(&self) -> usize {
        OBJECT_LIMIT
    }

    fn over_bytes<K: Sink>(&self, alloc: Global, bytes: &[u8], out: &mut K) -> Ending {
        match View::over(bytes) {
            Ok(view) => self.command.over_object(alloc, &view, out),
            Err(error) => refuse_bytes(error, out),
        }
    }

    fn refuse_long<K: Sink>(&self, out: &mut K) -> Ending {
        refuse_bytes(ObjectError::Length { at: OBJECT_LIMIT }, out)
    }
}

/// Loads the object of a command and writes the answer for it.
pub(crate) fn over_object<C: ObjectCommand + Drop, F: Shelf, K: Sink>(
    alloc: Global,
    command: C,
    shelf: &mut F,
    out: &mut K,
) -> Ending
    ensures { ForFiles (F.log shelf.old).files (F.agrees shelf.new) (λ told. (left : Option (List ℕ)) → Does (C.request command) result left
        (K.log out.old) (K.log out.new)
        (revealing told (F.log shelf.old)) (revealing told (F.log shelf.new)) ⊥) }
{
    over_file(alloc, &OverObject { command }, shelf, out)
}
