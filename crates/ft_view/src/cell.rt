//! Cells, whose names follow one another in the name bytes.
ghost use Rattle.std.specs.Prelude.{◌≡◌, ◌<◌, ◌≤◌, ◌^◌, OnOk};
ghost use Rattle.ft_format.specs.Fields.{cell_numbers};
ghost use Rattle.ft_format.specs.Rules.{cell_broken};
ghost use Rattle.ft_format.specs.Codes.{basic_type_of};
ghost use Rattle.ft_view.specs.Found.{Finds};

use crate::parts::basic;
use crate::rules::{check, check_basic};
use ft_format::{CellRow, Header, ObjectError};
use ft_types::CellHead;

/// Checks the record of a cell whose name begins at `start` in the name bytes: `Order` if the name's end is not above
/// `start` or is beyond the name bytes, `Name` if the name is longer than the version allows, and the errors of the
/// basic type.
pub fn check_cell(header: Header, start: u32, at: usize, row: CellRow) -> Result<(), ObjectError>
    requires places { at ≤ 2 ^ 27 }
    requires start { start ≤ 2 ^ 27 }
    ensures judged { Finds result (cell_broken header start at (cell_numbers row)) }
    ensures rises { OnOk result (start < row.past) }
    ensures past { OnOk result (row.past ≤ header.names) }
{
    check(start < row.past, ObjectError::Order { at })?;
    check(row.past <= header.names, ObjectError::Order { at })?;
    let longest = u32::from(header.version().longest_name());
    check(row.past <= start + longest, ObjectError::Name { at })?;
    check_basic(header.types, at + 4, row.refs, row.base, row.code_type)
}

/// The cell that a valid record encodes, without its name.
pub fn read_cell(row: CellRow) -> CellHead
    ensures basic { result.basic ≡ basic_type_of row.refs row.base row.code_type }
    ensures init { result.init ≡ row.init }
{
    CellHead {
        basic: basic(row.refs, row.base, row.code_type),
        init: row.init,
    }
}
