//! Cells, whose names follow one another in the name bytes.
ghost use Rattle.std.specs.Prelude.{◌*◌, ◌≤◌, ◌^◌, length};
ghost use Rattle.ft_format.specs.Layout.{rows, cell_layout};
ghost use Rattle.ft_format.specs.Broken.{cells_broken};
ghost use Rattle.ft_view.specs.Found.{Finds};

use crate::cell::check_cell;
use ft_format::{CellRow, Header, ObjectError};

/// Checks the records of all cells, except for the bytes of their names.
pub(crate) fn check_cells(header: Header, bytes: &[u8]) -> Result<(), ObjectError>
    requires there { 16 * header.cells ≤ length bytes.now }
    requires few { header.cells ≤ 1024 }
    requires few_names { header.names ≤ 40960 }
    ensures { Finds result (cells_broken header 0 48 (rows cell_layout header.cells bytes.now)) }
{
    let mut place: usize = 48;
    let mut start: u32 = 0;
    let mut rest = bytes;
    for _ in 0..header.cells {
        let (record, after) = rest.split_at(16);
        let row = CellRow::read(record);
        check_cell(header, start, place, row)?;
        place += 16;
        start = row.past;
        rest = after;
    }
    Ok(())
}
