//! Register rows: what each type says about registers.
ghost use Rattle.std.specs.Prelude.{◌≡◌, ◌+◌, ◌*◌, ◌≤◌, ◌^◌, length, drop, IfOk};
ghost use Rattle.ft_format.specs.Layout.{rows, reg_layout, type_layout};
ghost use Rattle.ft_format.specs.Values.{regs_end_of};
ghost use Rattle.ft_format.specs.Broken.{type_regs_broken, regs_broken};
ghost use Rattle.ft_view.specs.Found.{Finds};
ghost use Rattle.ft_view.specs.Ends.{AreEnds};

use crate::node_records::NodeRecords;
use crate::reg::check_reg;
use crate::rules::check;
use ft_format::{Header, ObjectError, RegRow, TypeRow};

/// Checks the register rows of one type, and returns the bytes after them.
fn check_type_regs<'a>(
    types: u32,
    nodes: &NodeRecords,
    ints: u8,
    at: usize,
    count: u32,
    bytes: &'a [u8],
) -> Result<&'a [u8], ObjectError>
    requires there { 12 * count ≤ length bytes.now }
    requires places { at + 12 * count ≤ 2 ^ 27 }
    ensures judged { Finds result (type_regs_broken types nodes.now ints 0 at (rows reg_layout count bytes.now)) }
    ensures rest { IfOk result (λ rest. rest.now ≡ drop (12 * count) bytes.now) }
{
    let mut place = at;
    let mut least: u8 = 0;
    let mut rest = bytes;
    for _ in 0..count {
        let (record, after) = rest.split_at(12);
        let row = RegRow::read(record);
        check_reg(types, nodes, ints, least, place, row)?;
        place += 12;
        least = row.reg + 1;
        rest = after;
    }
    Ok(rest)
}

/// Checks the register rows of all types.
pub(crate) fn check_regs(
    header: Header,
    nodes: &NodeRecords,
    at: usize,
    types: &[u8],
    bytes: &[u8],
) -> Result<(), ObjectError>
    requires types { 16 * header.types ≤ length types.now }
    requires there { 12 * header.regs ≤ length bytes.now }
    requires places { at + 12 * header.regs ≤ 2 ^ 27 }
    requires ends { AreEnds regs_end_of header.regs 0 (rows type_layout header.types types.now) }
    ensures { Finds result (regs_broken header nodes.now 0 at (rows type_layout header.types types.now) bytes.now) }
{
    let mut place = at;
    let mut start: u32 = 0;
    let mut heads = types;
    let mut rest = bytes;
    for _ in 0..header.types {
        let (head, after) = heads.split_at(16);
        let row = TypeRow::read(head);
        let count = row.regs - start;
        rest = check_type_regs(header.types, nodes, row.ints, place, count, rest)?;
        place += 12 * count as usize;
        start = row.regs;
        heads = after;
    }
    check(start == header.regs, ObjectError::Order { at: place })
}
