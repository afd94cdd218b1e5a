//! Substitution rows.
ghost use Rattle.std.specs.Prelude.{◌+◌, ◌*◌, ◌≤◌, ◌^◌, length};
ghost use Rattle.ft_format.specs.Layout.{rows, subst_layout};
ghost use Rattle.ft_format.specs.Broken.{subst_rows_broken, substs_broken};
ghost use Rattle.ft_view.specs.Found.{Finds};

use crate::node_records::NodeRecords;
use crate::rules::{check, check_node_number};
use ft_format::{Header, ObjectError, SubstRow};

/// Checks `count` rows.
fn check_rows(nodes: &NodeRecords, at: usize, count: u32, bytes: &[u8]) -> Result<(), ObjectError>
    requires there { 4 * count ≤ length bytes.now }
    requires places { at + 4 * count ≤ 2 ^ 27 }
    ensures { Finds result (subst_rows_broken nodes.now at (rows subst_layout count bytes.now)) }
{
    let mut place = at;
    let mut rest = bytes;
    for _ in 0..count {
        let (record, after) = rest.split_at(4);
        let row = SubstRow::read(record);
        check_node_number(nodes, false, place, row.node)?;
        place += 4;
        rest = after;
    }
    Ok(())
}

/// Checks the substitution rows of an object, as many as its substitutions take.
pub(crate) fn check_substs(
    header: Header,
    nodes: &NodeRecords,
    taken: u32,
    at: usize,
    bytes: &[u8],
) -> Result<(), ObjectError>
    requires there { 4 * header.substs ≤ length bytes.now }
    requires places { at + 4 * header.substs ≤ 2 ^ 27 }
    requires taken { taken ≤ header.substs }
    ensures { Finds result (substs_broken header nodes.now taken at bytes.now) }
{
    check_rows(nodes, at, taken, bytes)?;
    let end = at + 4 * taken as usize;
    check(taken == header.substs, ObjectError::Order { at: end })
}
