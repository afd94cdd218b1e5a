//! Commands on one file.
ghost use Rattle.std.specs.Prelude.{◌≡◌, ◌≢◌, ◌<◌, List, ℕ, Option, length};
ghost use Rattle.ft_tool.specs.Does.{Does};
ghost use Rattle.ft_tool.specs.Known.{ForFiles, revealing};

use crate::ending::Ending;
use crate::load::load_bytes;
use ft_edge::{Load, LoadFault, Shelf, Sink};
use std::alloc::Global;

/// A command on one file.
pub(crate) trait FileCommand {
    ghost use Rattle.std.specs.Prelude.{◌≡◌, ◌≢◌, ◌<◌, ℕ, List, length};
    ghost use Rattle.ft_command.specs.Options.{Word};
    ghost use Rattle.ft_command.specs.Commands.{Request};
    ghost use Rattle.ft_tool.specs.Replies.{Answer};
    ghost use Rattle.ft_tool.specs.Endings.{Ends};
    ghost use Rattle.ft_tool.specs.Does.{IsOverFile};

    // The request that it performs.
    ghost request: { Self → Request };

    // The name of its file.
    ghost file: { Self → Word };

    // The maximum number of bytes that it reads from its file.
    ghost limit: { Self → ℕ };

    // The answer for the file's bytes.
    ghost answer: { Self → List ℕ → Answer → Type 0 };

    /// The name of its file.
    fn file(&self) -> &str
        ensures { result.now ≡ file self.now };

    /// The maximum number of bytes that it reads from its file.
    fn limit(&self) -> usize
        ensures { result ≡ limit self.now };

    /// Writes the answer for the file's bytes.
    fn over_bytes<K: Sink>(&self, alloc: Global, bytes: &[u8], out: &mut K) -> Ending
        ensures { Ends result (answer self.now bytes.now)
            (K.log out.old) (K.log out.new) ⊥ };

    /// Writes the answer for a file that is longer than the limit.
    fn refuse_long<K: Sink>(&self, out: &mut K) -> Ending
        ensures { Ends result (λ a. (bytes : List ℕ) → limit self.now < length bytes → answer self.now bytes a)
            (K.log out.old) (K.log out.new) ⊥ };

    // An answer for this file's bytes answers the request, which loads no other file.
    ghost is_over_file: { (c : Self) → IsOverFile (request c) (file c) (limit c) (answer c) };
}

/// Loads the file of a command and writes the answer for it.
pub(crate) fn over_file<C: FileCommand, F: Shelf, K: Sink>(
    alloc: Global,
    command: &C,
    shelf: &mut F,
    out: &mut K,
) -> Ending
    ensures { ForFiles (F.log shelf.old).files (F.agrees shelf.new) (λ told.
        (left : Option (List ℕ)) → Does (C.request command.now) result left
        (K.log out.old) (K.log out.new)
        (revealing told (F.log shelf.old)) (revealing told (F.log shelf.new)) ⊥) }
{
    let mut bytes = Vec::new(alloc);
    match load_bytes(command.file(), command.limit(), shelf, &mut bytes) {
        Ok(Load::Whole) => command.over_bytes(alloc, bytes.as_slice(), out),
        Ok(Load::TooLong) => command.refuse_long(out),
        Err(LoadFault::Failed) => Ending::LoadFailed,
        Err(LoadFault::NoMemory) => Ending::NoMemory,
    }
}
