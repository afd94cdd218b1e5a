//! Types: where their rows end, their memory and their variables.
ghost use Rattle.std.specs.Prelude.{◌+◌, ◌*◌, ◌≤◌, ◌^◌, length, OnOk};
ghost use Rattle.ft_view.specs.Found.{Finds};
ghost use Rattle.ft_format.specs.Layout.{rows, type_layout};
ghost use Rattle.ft_format.specs.Fields.{type_numbers};
ghost use Rattle.ft_format.specs.Rules.{type_broken};
ghost use Rattle.ft_format.specs.Broken.{types_broken};

use crate::node_records::NodeRecords;
use crate::rules::{check, check_count, check_named, check_zero};
use ft_format::{Header, ObjectError, TypeRow};

/// Checks a type's record; the rows of the types before it end at `regs` and `queue`.
fn check_type(
    header: Header,
    nodes: &NodeRecords,
    regs: u32,
    queue: u32,
    at: usize,
    row: TypeRow,
) -> Result<(), ObjectError>
    requires places { at ≤ 2 ^ 27 }
    requires queue { queue ≤ 2 ^ 27 }
    ensures judged { Finds result (type_broken header nodes.now regs queue at (type_numbers row)) }
    ensures ends { OnOk result (row.queue ≤ header.queue) }
{
    check(regs <= row.regs, ObjectError::Order { at })?;
    check(row.regs <= header.regs, ObjectError::Order { at })?;
    check(queue <= row.queue, ObjectError::Order { at: at + 4 })?;
    check(row.queue <= header.queue, ObjectError::Order { at: at + 4 })?;
    check(row.queue <= queue + 8, ObjectError::Count { at: at + 4 })?;
    check_named(nodes, row.ints, true, at + 8, row.memory)?;
    check_count(128, at + 12, u32::from(row.ints))?;
    check_zero(at + 13, u32::from(row.pad0))?;
    check_zero(at + 13, u32::from(row.pad1))?;
    check_zero(at + 13, u32::from(row.pad2))
}

/// Checks the records of all types, the first of which is at a place: `Order` and `Count` for the ends of their rows,
/// `Index` and `Kind` for the memory, `Count` for the number of variables, `Pad` for the padding.
pub fn check_types(
    header: Header,
    nodes: &NodeRecords,
    at: usize,
    bytes: &[u8],
) -> Result<(), ObjectError>
    requires there { 16 * header.types ≤ length bytes.now }
    requires places { at + 16 * header.types ≤ 2 ^ 27 }
    requires queue { header.queue ≤ 2 ^ 27 }
    ensures { Finds result (types_broken header nodes.now 0 0 at (rows type_layout header.types bytes.now)) }
{
    let mut place = at;
    let mut regs: u32 = 0;
    let mut queue: u32 = 0;
    let mut rest = bytes;
    for _ in 0..header.types {
        let (record, after) = rest.split_at(16);
        let row = TypeRow::read(record);
        check_type(header, nodes, regs, queue, place, row)?;
        place += 16;
        regs = row.regs;
        queue = row.queue;
        rest = after;
    }
    Ok(())
}
