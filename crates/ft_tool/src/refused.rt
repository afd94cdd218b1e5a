//! The lines of refusals.
ghost use Rattle.std.specs.Prelude.{◌≡◌, ◌≤◌, ◌+◌, length};
ghost use Rattle.ft_typing.specs.Accepted as accepted;
ghost use Rattle.ft_tool.specs.Texts.{object_line, check_line, list_line, asm_line, link_line, link_code_line, source_line};

use ft_object::ObjectError;
use ft_rules::Why;
use ft_syntax::SourceError;
use ft_text::Line;

/// The line for bytes that spell no object.
pub(crate) fn object_line(error: ObjectError) -> Line
    ensures { result ≡ object_line error }
{
    let mut line = Line::new();
    line.piece(b"object ");
    line.number(error.number() as u64);
    line.piece(b" ");
    line.number(error.place() as u64);
    line.piece(b"\n");
    line
}

/// The line for an entry block in which no run may begin.
pub(crate) fn entry_line() -> Line
    ensures { result ≡ check_line accepted.EntryType }
{
    let mut line = Line::new();
    line.piece(b"check entry\n");
    line
}

/// The line for a cell whose initial word does not have its type.
pub(crate) fn cell_line(cell: u32) -> Line
    ensures { result ≡ check_line (accepted.CellType cell) }
{
    let mut line = Line::new();
    line.piece(b"check cell ");
    line.number(cell as u64);
    line.piece(b"\n");
    line
}

/// The line for an instruction whose typing rule does not apply.
pub(crate) fn place_line(block: u32, index: u32, why: Why) -> Line
    ensures { result ≡ check_line (accepted.Refused block index why) }
{
    let mut line = Line::new();
    line.piece(b"check block ");
    line.number(block as u64);
    line.piece(b" index ");
    line.number(index as u64);
    line.piece(b" premise ");
    line.number(why.number() as u64);
    line.piece(b"\n");
    line
}

/// The line for a fault list, a campaign or a script that is refused.
pub(crate) fn list_line(number: u64, told: u64) -> Line
    ensures { result ≡ list_line number told }
{
    let mut line = Line::new();
    line.piece(b"list ");
    line.number(number);
    line.piece(b" ");
    line.number(told);
    line.piece(b"\n");
    line
}

/// The line for an assembly text that is refused.
pub(crate) fn asm_line(number: u64, told: u64) -> Line
    ensures { result ≡ asm_line number told }
{
    let mut line = Line::new();
    line.piece(b"asm ");
    line.number(number);
    line.piece(b" ");
    line.number(told);
    line.piece(b"\n");
    line
}

/// The line for a link that is refused; `told` is a line of the map, a module or a limit.
pub(crate) fn link_line(number: u64, told: u64) -> Line
    ensures { result ≡ link_line number told }
{
    let mut line = Line::new();
    line.piece(b"link ");
    line.number(number);
    line.piece(b" ");
    line.number(told);
    line.piece(b"\n");
    line
}

/// The line for an instruction that uses a code address other than as a target, in the module with this number.
pub(crate) fn link_code_line(number: u32, block: u32, index: u32) -> Line
    ensures { result ≡ link_code_line number block index }
{
    let mut line = Line::new();
    line.piece(b"link 5 ");
    line.number(number as u64);
    line.piece(b" ");
    line.number(block as u64);
    line.piece(b" ");
    line.number(index as u64);
    line.piece(b"\n");
    line
}

/// The line for a source that is refused.
pub(crate) fn source_line(error: SourceError) -> Line
    ensures { result ≡ source_line error }
{
    let mut line = Line::new();
    line.piece(b"source ");
    line.number(error.number() as u64);
    line.piece(b" ");
    line.number(error.told());
    line.piece(b"\n");
    line
}
