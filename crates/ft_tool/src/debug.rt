//! The command `debug`.
ghost use Rattle.std.specs.Prelude.{◌≡◌, ◌≢◌, ◌≤◌, ◌⊎◌, [], ◌∷◌, length};
ghost use Rattle.ft_edge.specs.Causes.{Rose};
ghost use Rattle.ft_edge.specs.Streams.{TakesAtMost};
ghost use Rattle.ft_types.specs.Spellable.{IsSpellable};
ghost use Rattle.ft_format.specs.Format.{AreBytes};
ghost use Rattle.ft_command.specs.Commands.{Debugs};
ghost use Rattle.ft_command.specs.Asked.{debugging_view};
ghost use Rattle.ft_edge.specs.Logs.{NoLoadFails};
ghost use Rattle.ft_tool.specs.Scripts.{DebugsObject};
ghost use Rattle.ft_tool.specs.Answers.{OverFile, SpellsFile, FailsIn, FailsAtScript};
ghost use Rattle.ft_tool.specs.Calls.{HasMade, object_load};
ghost use Rattle.ft_tool.specs.Known.{ForFiles, ForScript, revealing};
ghost use Rattle.ft_tool.specs.Told.{OfFiles, OfScript};
ghost use Rattle.ft_tool.specs.Endings.{Ends};

use crate::ending::{Ending, refuse_object, refuse_script};
use crate::load::load_object;
use crate::script::take_script;
use ft_command::Debugging;
use ft_debug::{DebugEnd, session};
use ft_edge::{Shelf, Sink, Source};
use ft_types::Program;
use std::alloc::Global;

/// Runs a script as a debugger session on an object.
fn debug_text<P: Program, K: Sink>(
    alloc: Global,
    program: &P,
    asked: &Debugging,
    text: &[u8],
    out: &mut K,
) -> Ending
    requires spellable { IsSpellable (P.object program.now) }
    requires short { length text.now ≤ 1048576 }
    ensures bytes { AreBytes text.now }
    ensures ends { Ends result (DebugsObject (debugging_view asked.now) text.now (P.object program.now))
        (K.log out.old) (K.log out.new) ⊥ }
{
    match session(alloc, program, asked.wild.as_slice(), text, out) {
        DebugEnd::Ended => Ending::Done,
        DebugEnd::WriteFault => Ending::WriteFailed,
        DebugEnd::NoMemory => Ending::NoMemory,
    }
}

/// Reads the script and runs it as a session on an object.
fn debug_object<P: Program, I: Source, K: Sink>(
    alloc: Global,
    program: &P,
    asked: &Debugging,
    script: &mut I,
    out: &mut K,
) -> Ending
    requires spellable { IsSpellable (P.object program.now) }
    ensures ends { ForScript (I.log script.old).left (I.heard script.old) (I.heard script.new) (I.may_be_left script.new) (λ left. Ends result (λ a. OfScript left (λ text. DebugsObject (debugging_view asked.now) text (P.object program.now) a))
        (K.log out.old) (K.log out.new)
        (Rose (I.log script.old).failures (I.log script.new).failures)) }
    ensures script_failures { result ≢ Ending.LoadFailed → (I.log script.new).failures ≡ (I.log script.old).failures }
    ensures taken { TakesAtMost 1048577 (I.log script.old) (I.log script.new) }
{
    match take_script(alloc, script) {
        Ok(text) => debug_text(alloc, program, asked, text.as_slice(), out),
        Err(fault) => refuse_script(fault, out),
    }
}

/// Loads an object and runs the script as a session on it, without checking the object.
pub(crate) fn debug_file<F: Shelf, I: Source, K: Sink>(
    alloc: Global,
    asked: &Debugging,
    shelf: &mut F,
    script: &mut I,
    out: &mut K,
) -> Ending
    ensures ends { ForFiles (F.log shelf.old).files (F.agrees shelf.new) (λ told.
        ForScript (I.log script.old).left (I.heard script.old) (I.heard script.new) (I.may_be_left script.new) (λ left.
        Ends result (λ a. OfFiles told (λ files. OfScript left (λ text. OverFile (DebugsObject (debugging_view asked.now) text) asked.now.object.now files a)))
        (K.log out.old) (K.log out.new)
        (OfFiles told (λ files. FailsIn (Debugs (debugging_view asked.now)) files
        (revealing told (F.log shelf.old)) (revealing told (F.log shelf.new))
        ⊎ FailsAtScript (debugging_view asked.now) files
        (I.log script.old) (I.log script.new))))) }
    ensures load_failures { result ≢ Ending.LoadFailed → NoLoadFails
        (F.log shelf.old) (F.log shelf.new) }
    ensures script_failures { result ≢ Ending.LoadFailed → (I.log script.new).failures ≡ (I.log script.old).failures }
    ensures made { HasMade (object_load asked.now.object.now ∷ []) (F.log shelf.old).asked (F.log shelf.new).asked }
    ensures script { ForFiles (F.log shelf.old).files (F.agrees shelf.new) (λ told.
        (OfFiles told (λ files. SpellsFile files asked.now.object.now)
        × TakesAtMost 1048577 (I.log script.old) (I.log script.new))
        ⊎ (script.new ≡ script.old)) }
{
    let mut bytes = Vec::new(alloc);
    match load_object(asked.object, shelf, &mut bytes) {
        Ok(view) => debug_object(alloc, &view, asked, script, out),
        Err(fault) => refuse_object(fault, out),
    }
}
