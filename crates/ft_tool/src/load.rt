//! Loads the files of a command.
ghost use Rattle.std.specs.Prelude.{◌≡◌, ◌≤◌, [], ◌∷◌, length, IfOk};
ghost use Rattle.ft_command.specs.Asked.{campaign_view};
ghost use Rattle.ft_tool.specs.Calls.{HasMade, object_load, list_load};
ghost use Rattle.ft_tool.specs.Replies.{IsToldFile};
ghost use Rattle.ft_tool.specs.Told.{IsListOf, LoadsOther};
ghost use Rattle.ft_edge.specs.Logs.{LoadCause as EdgeCause};
ghost use Rattle.ft_tool.specs.Known.{ForFiles};
ghost use Rattle.ft_edge.specs.Loads.{Files};
ghost use Rattle.ft_tool.specs.Files.{Gives, fault_of, LoadsBytes, LoadsObject, LoadCause, ReadsList, GetsList, ListCause};

use ft_campaign::{ListError, read_faults};
use ft_command::Campaign;
use ft_edge::{Load, LoadFault, Shelf};
use ft_isa::Strike;
use ft_object::{DecodeError, ObjectError};
use ft_view::View;
use std::alloc::Global;
use thiserror::Error;

/// The maximum size of an object file in bytes.
pub(crate) const OBJECT_LIMIT: usize = 67_108_864;

/// The maximum size of a source in bytes.
pub(crate) const SOURCE_LIMIT: usize = 1_048_576;

/// The maximum size of an assembly text in bytes.
pub(crate) const TEXT_LIMIT: usize = 134_217_728;

/// The maximum size of a link map in bytes.
pub(crate) const MAP_LIMIT: usize = 65_536;

/// The maximum size of a fault list in bytes.
const LIST_LIMIT: usize = 4_194_304;

/// Loads the file with this name into an empty vector, unless the file is longer than the limit.
pub(crate) fn load_bytes<F: Shelf>(
    name: &str,
    limit: usize,
    shelf: &mut F,
    bytes: &mut Vec<u8>,
) -> Result<Load, LoadFault>
    requires { bytes.old.items ≡ [] }
    ensures gives { ForFiles (F.log shelf.old).files (F.agrees shelf.new) (λ told. Gives told name.now limit bytes.new.items result) }
    ensures files { (F.log shelf.new).files ≡ (F.log shelf.old).files }
    ensures earlier { (files : Files) → F.agrees shelf.new files → F.agrees shelf.old files }
    ensures cause { EdgeCause (F.log shelf.old) (F.log shelf.new) name.now result }
    ensures made { HasMade ((name.now, limit) ∷ []) (F.log shelf.old).asked (F.log shelf.new).asked }
{
    shelf.load(name, limit, bytes)
}

/// Why there is no object.
#[derive(Clone, Copy, Debug, PartialEq, Eq, Error)]
pub(crate) enum ObjectFault {
    /// The file's bytes spell no object.
    #[error("{0}")]
    Refused(ObjectError),
    /// The file could not be read.
    #[error("the file could not be read")]
    Failed,
    /// Memory ran out.
    #[error("out of memory")]
    NoMemory,
}

/// Why there is no object if the loaded bytes could not be decoded.
pub(crate) fn fault_of(error: DecodeError) -> ObjectFault
    ensures { result ≡ fault_of error }
{
    match error {
        DecodeError::Object(error) => ObjectFault::Refused(error),
        DecodeError::NoMemory => ObjectFault::NoMemory,
    }
}

/// Loads the file with this name, which should be an object, into an empty vector.
pub(crate) fn load_object_bytes<F: Shelf>(
    name: &str,
    shelf: &mut F,
    bytes: &mut Vec<u8>,
) -> Result<(), ObjectFault>
    requires { bytes.old.items ≡ [] }
    ensures loads { ForFiles (F.log shelf.old).files (F.agrees shelf.new) (λ told. LoadsBytes told name.now bytes.new.items result) }
    ensures files { (F.log shelf.new).files ≡ (F.log shelf.old).files }
    ensures earlier { (files : Files) → F.agrees shelf.new files → F.agrees shelf.old files }
    ensures cause { LoadCause name.now result (F.log shelf.old) (F.log shelf.new) }
    ensures made { HasMade (object_load name.now ∷ []) (F.log shelf.old).asked (F.log shelf.new).asked }
{
    match load_bytes(name, OBJECT_LIMIT, shelf, bytes) {
        Ok(Load::Whole) => Ok(()),
        Ok(Load::TooLong) => Err(ObjectFault::Refused(ObjectError::Length { at: OBJECT_LIMIT })),
        Err(LoadFault::Failed) => Err(ObjectFault::Failed),
        Err(LoadFault::NoMemory) => Err(ObjectFault::NoMemory),
    }
}

/// Loads the file with this name into an empty vector, and views the bytes as an object.
pub(crate) fn load_object<'a, F: Shelf>(
    name: &str,
    shelf: &mut F,
    bytes: &'a mut Vec<u8>,
) -> Result<View<'a>, ObjectFault>
    requires empty { bytes.old.items ≡ [] }
    ensures loads { ForFiles (F.log shelf.old).files (F.agrees shelf.new) (λ told. LoadsObject told name.now result) }
    ensures files { (F.log shelf.new).files ≡ (F.log shelf.old).files }
    ensures earlier { (files : Files) → F.agrees shelf.new files → F.agrees shelf.old files }
    ensures cause { LoadCause name.now result (F.log shelf.old) (F.log shelf.new) }
    ensures made { HasMade (object_load name.now ∷ []) (F.log shelf.old).asked (F.log shelf.new).asked }
{
    match load_object_bytes(name, shelf, bytes) {
        Ok(()) => match View::over(bytes.as_slice()) {
            Ok(view) => Ok(view),
            Err(error) => Err(ObjectFault::Refused(error)),
        },
        Err(fault) => Err(fault),
    }
}

/// Why there is no fault list.
#[derive(Clone, Copy, Debug, PartialEq, Eq, Error)]
pub(crate) enum ListFault {
    /// The line with this number, counted from 1, is not a fault.
    #[error("line {0} is not a strike")]
    Line(u32),
    /// The file has more than 4,194,304 bytes or more than 65,536 lines.
    #[error("too many faults")]
    TooMany,
    /// The file could not be read.
    #[error("the file could not be read")]
    Failed,
    /// Memory ran out.
    #[error("out of memory")]
    NoMemory,
}

/// Reads bytes as a fault list.
fn read_list(alloc: Global, bytes: &[u8]) -> Result<Vec<Strike>, ListFault>
    ensures reads { ReadsList (λ v. v.items) bytes.now result }
    ensures few { IfOk result (λ faults. length faults.items ≤ 65536) }
{
    match read_faults(alloc, bytes) {
        Ok(faults) => Ok(faults),
        Err(ListError::Line { number }) => Err(ListFault::Line(number)),
        Err(ListError::TooMany) => Err(ListFault::TooMany),
        Err(ListError::NoMemory) => Err(ListFault::NoMemory),
    }
}

/// Loads the file with this name and reads it as a fault list.
fn load_list<F: Shelf>(alloc: Global, name: &str, shelf: &mut F) -> Result<Vec<Strike>, ListFault>
    ensures gets { ForFiles (F.log shelf.old).files (F.agrees shelf.new) (λ told.
        GetsList (λ v. v.items) (IsToldFile told name.now) result) }
    ensures few { IfOk result (λ faults. length faults.items ≤ 65536) }
    ensures cause { ListCause name.now result (F.log shelf.old) (F.log shelf.new) }
    ensures files { (F.log shelf.new).files ≡ (F.log shelf.old).files }
    ensures earlier { (files : Files) → F.agrees shelf.new files → F.agrees shelf.old files }
    ensures made { HasMade (list_load name.now ∷ []) (F.log shelf.old).asked (F.log shelf.new).asked }
{
    let mut bytes = Vec::new(alloc);
    match load_bytes(name, LIST_LIMIT, shelf, &mut bytes) {
        Ok(Load::Whole) => read_list(alloc, bytes.as_slice()),
        Ok(Load::TooLong) => Err(ListFault::TooMany),
        Err(LoadFault::Failed) => Err(ListFault::Failed),
        Err(LoadFault::NoMemory) => Err(ListFault::NoMemory),
    }
}

/// The fault list of a campaign whose object file has these bytes. If the list has the object's name, it is read from
/// these bytes, and no file is loaded.
pub(crate) fn list_of<F: Shelf>(
    alloc: Global,
    asked: &Campaign,
    bytes: &[u8],
    shelf: &mut F,
) -> Result<Vec<Strike>, ListFault>
    ensures gets { ForFiles (F.log shelf.old).files (F.agrees shelf.new) (λ told.
        IsToldFile told asked.now.object.now bytes.now → GetsList (λ v. v.items) (IsListOf (campaign_view asked.now) told bytes.now) result) }
    ensures few { IfOk result (λ faults. length faults.items ≤ 65536) }
    ensures cause { ListCause asked.now.faults.now result (F.log shelf.old) (F.log shelf.new) }
    ensures files { (F.log shelf.new).files ≡ (F.log shelf.old).files }
    ensures earlier { (files : Files) → F.agrees shelf.new files → F.agrees shelf.old files }
    ensures made { LoadsOther (campaign_view asked.now) (F.log shelf.old).asked (F.log shelf.new).asked }
{
    if asked.faults == asked.object {
        return read_list(alloc, bytes);
    }
    load_list(alloc, asked.faults, shelf)
}
