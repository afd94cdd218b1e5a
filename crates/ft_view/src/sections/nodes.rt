//! Nodes, each after the nodes that it refers to.
ghost use Rattle.std.specs.Prelude.{◌+◌, ◌*◌, ◌≤◌, ◌^◌, [], length};
ghost use Rattle.ft_format.specs.Layout.{rows, code_layout};
ghost use Rattle.ft_format.specs.Broken.{nodes_broken};
ghost use Rattle.ft_view.specs.Found.{Finds};

use crate::node::check_node;
use crate::node_records::NodeRecords;
use ft_format::{NodeRow, ObjectError, Version};

/// Checks `count` records of nodes, the first of which is at a place. It is not inlined, so that the loop has enough
/// registers.
#[inline(never)]
pub(crate) fn check_nodes(
    version: Version,
    count: u32,
    at: usize,
    bytes: &[u8],
) -> Result<(), ObjectError>
    requires there { 16 * count ≤ length bytes.now }
    requires places { at + 16 * count ≤ 2 ^ 27 }
    ensures { Finds result (nodes_broken version [] at (rows code_layout count bytes.now)) }
{
    let mut place = at;
    let mut rest = bytes;
    for i in 0..count {
        let (record, after) = rest.split_at(16);
        let row = NodeRow::read(record);
        let earlier = NodeRecords::new(i, bytes);
        check_node(version, &earlier, place, row)?;
        place += 16;
        rest = after;
    }
    Ok(())
}
