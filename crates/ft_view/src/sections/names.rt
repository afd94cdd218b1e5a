//! Names of cells, one after the other.
ghost use Rattle.std.specs.Prelude.{◌≡◌, ◌+◌, ◌*◌, ◌≤◌, ◌^◌, [], length};
ghost use Rattle.std.specs.List.{list_any};
ghost use Rattle.std.specs.Str.{bytes_eq};
ghost use Rattle.ft_format.specs.Layout.{rows, cell_layout};
ghost use Rattle.ft_format.specs.Values.{past_of, cells_of};
ghost use Rattle.ft_format.specs.Broken.{name_broken, names_broken};
ghost use Rattle.ft_view.specs.Found.{Finds};
ghost use Rattle.ft_view.specs.Ends.{AreEnds};

use crate::byte_part::stretch;
use crate::name::check_name_bytes;
use crate::rules::check;
use crate::same_name::is_same;
use ft_format::{CellRow, ObjectError, Version};

/// Whether one of the first `count` cells has this name.
fn has_name(names: &[u8], count: u32, records: &[u8], name: &[u8]) -> bool
    requires there { 16 * count ≤ length records.now }
    requires ends { AreEnds past_of (length names.now) 0 (rows cell_layout count records.now) }
    ensures { result ≡ list_any (λ c. bytes_eq name.now c.name) (cells_of names.now 0 (rows cell_layout count records.now)) }
{
    let mut start: u32 = 0;
    let mut rest = records;
    for _ in 0..count {
        let (record, after) = rest.split_at(16);
        let row = CellRow::read(record);
        let other = stretch(names, start as usize, (row.past - start) as usize);
        if is_same(name, other) {
            return true;
        }
        start = row.past;
        rest = after;
    }
    false
}

/// Checks a name at a place, given the earlier cells.
fn check_name(
    version: Version,
    names: &[u8],
    earlier: u32,
    records: &[u8],
    at: usize,
    name: &[u8],
) -> Result<(), ObjectError>
    requires there { 16 * earlier ≤ length records.now }
    requires ends { AreEnds past_of (length names.now) 0 (rows cell_layout earlier records.now) }
    requires places { at + length name.now ≤ 2 ^ 27 }
    ensures { Finds result (name_broken version (cells_of names.now 0 (rows cell_layout earlier records.now)) at name.now) }
{
    check_name_bytes(version, at, name)?;
    let is_there = has_name(names, earlier, records, name);
    check(!is_there, ObjectError::Name { at })
}

/// Checks the cells' names, whose bytes begin at a place and must reach the end: `Name` for a byte that is not allowed
/// there or a name that an earlier cell has, `Order` for a leftover byte.
pub(crate) fn check_names(
    version: Version,
    end: usize,
    at: usize,
    names: &[u8],
    count: u32,
    records: &[u8],
) -> Result<(), ObjectError>
    requires there { 16 * count ≤ length records.now }
    requires ends { AreEnds past_of (length names.now) 0 (rows cell_layout count records.now) }
    requires places { at + length names.now ≤ 2 ^ 27 }
    ensures { Finds result (names_broken version end [] at (cells_of names.now 0 (rows cell_layout count records.now))) }
{
    let mut start: u32 = 0;
    let mut rest = records;
    for i in 0..count {
        let (record, after) = rest.split_at(16);
        let row = CellRow::read(record);
        let name = stretch(names, start as usize, (row.past - start) as usize);
        check_name(version, names, i, records, at + start as usize, name)?;
        start = row.past;
        rest = after;
    }
    let place = at + start as usize;
    check(place == end, ObjectError::Order { at: place })
}
