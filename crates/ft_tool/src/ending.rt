//! How commands end.
ghost use Rattle.std.specs.Prelude.{◌≡◌, ◌≢◌};
ghost use Rattle.ft_types.specs.declared.object.Object.{Object as Spelled};
ghost use Rattle.ft_types.specs.Spellable.{IsSpellable};
ghost use Rattle.ft_format.specs.declared.version.Version.TheVariants.{Second};
ghost use Rattle.ft_format.specs.Format.{Spells};
ghost use Rattle.ft_tool.specs.Objects.{UpgradesObject, refused};
ghost use Rattle.ft_tool.specs.Answers.{usage};
ghost use Rattle.ft_tool.specs.Replies.{one_piece};
ghost use Rattle.ft_tool.specs.Files.{IsRefusedBy, IsNotAccepted, IsListRefusedBy, IsTextRefused};
ghost use Rattle.ft_tool.specs.Texts.{list_line, asm_line};
ghost use Rattle.ft_tool.specs.Sources.{IsSourceRefused};
ghost use Rattle.ft_tool.specs.Scripts.{IsScriptRefusedBy};
ghost use Rattle.ft_tool.specs.Endings.{Ends, ending_of_run};

use crate::load::{ListFault, ObjectFault};
use crate::refused::{
    asm_line, cell_line, entry_line, list_line, object_line, place_line, source_line,
};
use crate::script::ScriptFault;
use ft_asm::AsmError;
use ft_checker::CheckError;
use ft_edge::{Sink, put_line};
use ft_machine::RunEnd;
use ft_object::{ObjectError, encode};
use ft_syntax::SourceError;
use ft_types::Object;
use std::alloc::Global;

/// How a command ended.
#[derive(Clone, Copy, Debug, PartialEq, Eq)]
pub(crate) enum Ending {
    /// The command succeeded.
    Done,
    /// The machine detected a fault.
    Detected,
    /// The words are not a command.
    Usage,
    /// A file or the script could not be read.
    LoadFailed,
    /// The output could not be written.
    WriteFailed,
    /// Memory ran out.
    NoMemory,
    /// The source is refused.
    SourceRefused,
    /// The bytes spell no object.
    ObjectRefused,
    /// The object is not accepted.
    NotAccepted,
    /// The machine is still running after the last step.
    OutOfSteps,
    /// At least one verdict is corrupt.
    Corrupt,
    /// The fault list, the campaign over it, or the script is refused.
    ListRefused,
    /// The assembly text is refused.
    TextRefused,
    /// The link map, or the link that it describes, is refused.
    LinkRefused,
}

/// How a command ends, given how its run ended.
pub(crate) fn ending_of_run(end: RunEnd) -> Ending
    ensures { result ≡ ending_of_run end }
{
    match end {
        RunEnd::Done => Ending::Done,
        RunEnd::Detected => Ending::Detected,
        RunEnd::OutOfSteps => Ending::OutOfSteps,
        RunEnd::WriteFault => Ending::WriteFailed,
    }
}

/// Writes bytes that spell an object in version 2 of the format, with one put.
pub(crate) fn put_spelling<K: Sink>(bytes: &[u8], out: &mut K) -> Ending
    ensures { (o : Spelled) → Spells bytes.now Second o → Ends result (UpgradesObject o)
        (K.log out.old) (K.log out.new) ⊥ }
{
    match put_line(bytes, out) {
        Ok(()) => Ending::Done,
        Err(_) => Ending::WriteFailed,
    }
}

/// Writes the bytes of an object in version 2 of the format, with one put.
pub(crate) fn put_object<K: Sink>(alloc: Global, object: &Object, out: &mut K) -> Ending
    requires { IsSpellable object.now }
    ensures { Ends result (UpgradesObject object.now)
        (K.log out.old) (K.log out.new) ⊥ }
{
    let Ok(bytes) = encode(alloc, object) else {
        return Ending::NoMemory;
    };
    put_spelling(bytes.as_slice(), out)
}

/// Writes the line for words that are not a command.
pub(crate) fn put_usage<K: Sink>(out: &mut K) -> Ending
    ensures { Ends result (λ a. a ≡ usage) (K.log out.old) (K.log out.new) ⊥ }
{
    match put_line(b"usage\n", out) {
        Ok(()) => Ending::Usage,
        Err(_) => Ending::WriteFailed,
    }
}

/// Ends a command whose object's bytes are refused: writes the line of the refusal.
pub(crate) fn refuse_bytes<K: Sink>(error: ObjectError, out: &mut K) -> Ending
    ensures { Ends result (λ a. a ≡ refused error) (K.log out.old) (K.log out.new) ⊥ }
{
    match put_line(object_line(error).as_bytes(), out) {
        Ok(()) => Ending::ObjectRefused,
        Err(_) => Ending::WriteFailed,
    }
}

/// Ends a command whose object was not read: writes the line of the refusal if the object's bytes are refused.
pub(crate) fn refuse_object<K: Sink>(fault: ObjectFault, out: &mut K) -> Ending
    ensures ends { Ends result (IsRefusedBy fault)
        (K.log out.old) (K.log out.new) (fault ≡ ObjectFault.Failed) }
    ensures failed { result ≢ Ending.LoadFailed → fault ≢ ObjectFault.Failed }
{
    match fault {
        ObjectFault::Refused(error) => refuse_bytes(error, out),
        ObjectFault::Failed => Ending::LoadFailed,
        ObjectFault::NoMemory => Ending::NoMemory,
    }
}

/// Ends a command whose object is not accepted: writes the line of the refusal. If memory ran out, nothing is written.
pub(crate) fn refuse_check<K: Sink>(error: CheckError, out: &mut K) -> Ending
    ensures { Ends result (IsNotAccepted error) (K.log out.old) (K.log out.new) ⊥ }
{
    let line = match error {
        CheckError::EntryType => entry_line(),
        CheckError::CellType { cell } => cell_line(cell),
        CheckError::Refused { block, index, why } => place_line(block, index, why),
        CheckError::NoMemory => return Ending::NoMemory,
    };
    match put_line(line.as_bytes(), out) {
        Ok(()) => Ending::NotAccepted,
        Err(_) => Ending::WriteFailed,
    }
}

/// Writes the line for a list, a campaign or a script that is refused.
pub(crate) fn put_list_line<K: Sink>(number: u64, told: u64, out: &mut K) -> Ending
    ensures { Ends result (λ a. a ≡ one_piece (list_line number told) 11)
        (K.log out.old) (K.log out.new) ⊥ }
{
    match put_line(list_line(number, told).as_bytes(), out) {
        Ok(()) => Ending::ListRefused,
        Err(_) => Ending::WriteFailed,
    }
}

/// Ends a command whose fault list was not read: writes the line of the refusal if the list is refused.
pub(crate) fn refuse_list<K: Sink>(fault: ListFault, out: &mut K) -> Ending
    ensures ends { Ends result (IsListRefusedBy fault)
        (K.log out.old) (K.log out.new) (fault ≡ ListFault.Failed) }
    ensures failed { result ≢ Ending.LoadFailed → fault ≢ ListFault.Failed }
{
    match fault {
        ListFault::Line(number) => put_list_line(1, number as u64, out),
        ListFault::TooMany => put_list_line(2, 65_536, out),
        ListFault::Failed => Ending::LoadFailed,
        ListFault::NoMemory => Ending::NoMemory,
    }
}

/// Ends a command whose script was not read: writes the line of the refusal if the script is too long.
pub(crate) fn refuse_script<K: Sink>(fault: ScriptFault, out: &mut K) -> Ending
    ensures ends { Ends result (IsScriptRefusedBy fault)
        (K.log out.old) (K.log out.new) (fault ≡ ScriptFault.Failed) }
    ensures failed { result ≢ Ending.LoadFailed → fault ≢ ScriptFault.Failed }
{
    match fault {
        ScriptFault::TooLong => put_list_line(4, 1_048_576, out),
        ScriptFault::Failed => Ending::LoadFailed,
        ScriptFault::NoMemory => Ending::NoMemory,
    }
}

/// Ends a command whose source is refused: writes the line of the refusal. If memory ran out, nothing is written.
pub(crate) fn refuse_source<K: Sink>(error: SourceError, out: &mut K) -> Ending
    ensures { Ends result (IsSourceRefused error) (K.log out.old) (K.log out.new) ⊥ }
{
    if let SourceError::NoMemory = error {
        return Ending::NoMemory;
    }
    match put_line(source_line(error).as_bytes(), out) {
        Ok(()) => Ending::SourceRefused,
        Err(_) => Ending::WriteFailed,
    }
}

/// Writes the line for an assembly text that is refused.
fn put_text_line<K: Sink>(number: u64, told: u64, out: &mut K) -> Ending
    ensures { Ends result (λ a. a ≡ one_piece (asm_line number told) 12)
        (K.log out.old) (K.log out.new) ⊥ }
{
    match put_line(asm_line(number, told).as_bytes(), out) {
        Ok(()) => Ending::TextRefused,
        Err(_) => Ending::WriteFailed,
    }
}

/// Ends a command whose assembly text is refused: writes the line of the refusal. If memory ran out, nothing is
/// written.
pub(crate) fn refuse_text<K: Sink>(error: AsmError, out: &mut K) -> Ending
    ensures { Ends result (IsTextRefused error) (K.log out.old) (K.log out.new) ⊥ }
{
    match error {
        AsmError::Text { line } => put_text_line(1, line as u64, out),
        AsmError::Order { line } => put_text_line(2, line as u64, out),
        AsmError::TooLong => put_text_line(3, 134_217_728, out),
        AsmError::Object(error) => refuse_bytes(error, out),
        AsmError::NoMemory => Ending::NoMemory,
    }
}
