//! How refused links end.
ghost use Rattle.std.specs.Prelude.{◌≡◌, ◌≢◌};
ghost use Rattle.ft_tool.specs.Endings.{Ends};
ghost use Rattle.ft_tool.specs.Files.{IsMapRefused, IsUnlinkedBy};
ghost use Rattle.ft_tool.specs.Replies.{one_piece};
ghost use Rattle.ft_tool.specs.Texts.{link_line, link_code_line};

use crate::ending::Ending;
use crate::refused::{link_code_line, link_line};
use ft_edge::{Sink, put_line};
use ft_link_map::MapError;
use ft_linker::LinkError;

/// Writes the line for a link that is refused.
pub(crate) fn put_link_line<K: Sink>(number: u64, told: u64, out: &mut K) -> Ending
    ensures { Ends result (λ a. a ≡ one_piece (link_line number told) 13)
        (K.log out.old) (K.log out.new) ⊥ }
{
    match put_line(link_line(number, told).as_bytes(), out) {
        Ok(()) => Ending::LinkRefused,
        Err(_) => Ending::WriteFailed,
    }
}

/// Writes the line for an instruction that uses a code address other than as a target, in the module with this number.
fn put_code_line<K: Sink>(number: u32, block: u32, index: u32, out: &mut K) -> Ending
    ensures { Ends result (λ a. a ≡ one_piece (link_code_line number block index) 13)
        (K.log out.old) (K.log out.new) ⊥ }
{
    match put_line(link_code_line(number, block, index).as_bytes(), out) {
        Ok(()) => Ending::LinkRefused,
        Err(_) => Ending::WriteFailed,
    }
}

/// Ends a link whose modules are refused: writes the line of the refusal. If memory ran out, nothing is written.
pub(crate) fn refuse_modules<K: Sink>(error: LinkError, out: &mut K) -> Ending
    ensures { Ends result (IsUnlinkedBy error) (K.log out.old) (K.log out.new) ⊥ }
{
    match error {
        LinkError::Cells { module } => put_link_line(3, module as u64, out),
        LinkError::Rows { module } => put_link_line(4, module as u64, out),
        LinkError::Code {
            module,
            block,
            index,
        } => put_code_line(module, block, index, out),
        LinkError::TooBig { module } => put_link_line(6, module as u64, out),
        LinkError::Block { line } => put_link_line(7, line as u64, out),
        LinkError::Stub { line } => put_link_line(8, line as u64, out),
        LinkError::Missing { line } => put_link_line(9, line as u64, out),
        LinkError::Types { line } => put_link_line(10, line as u64, out),
        LinkError::NoMemory => Ending::NoMemory,
    }
}

/// Ends a link whose map is refused: writes the line of the refusal. If memory ran out, nothing is written.
pub(crate) fn refuse_map<K: Sink>(error: MapError, out: &mut K) -> Ending
    ensures { Ends result (IsMapRefused error) (K.log out.old) (K.log out.new) ⊥ }
{
    match error {
        MapError::Line { line } => put_link_line(1, line as u64, out),
        MapError::Twice { line } => put_link_line(2, line as u64, out),
        MapError::NoMemory => Ending::NoMemory,
    }
}
