//! Queue rows: what each type says about pending stores.
ghost use Rattle.std.specs.Prelude.{◌≡◌, ◌+◌, ◌*◌, ◌≤◌, ◌^◌, length, drop, IfOk};
ghost use Rattle.ft_format.specs.Layout.{rows, pair_layout, type_layout};
ghost use Rattle.ft_format.specs.Values.{queue_end_of};
ghost use Rattle.ft_format.specs.Broken.{type_queue_broken, queues_broken};
ghost use Rattle.ft_view.specs.Found.{Finds};
ghost use Rattle.ft_view.specs.Ends.{AreEnds};

use crate::node_records::NodeRecords;
use crate::queue_pair::check_queue_row;
use crate::rules::check;
use ft_format::{Header, ObjectError, PairRow, TypeRow};

/// Checks the queue rows of one type, and returns the bytes after them.
fn check_type_queue<'a>(
    nodes: &NodeRecords,
    ints: u8,
    at: usize,
    count: u32,
    bytes: &'a [u8],
) -> Result<&'a [u8], ObjectError>
    requires there { 8 * count ≤ length bytes.now }
    requires places { at + 8 * count ≤ 2 ^ 27 }
    ensures judged { Finds result (type_queue_broken nodes.now ints at (rows pair_layout count bytes.now)) }
    ensures rest { IfOk result (λ rest. rest.now ≡ drop (8 * count) bytes.now) }
{
    let mut place = at;
    let mut rest = bytes;
    for _ in 0..count {
        let (record, after) = rest.split_at(8);
        let row = PairRow::read(record);
        check_queue_row(nodes, ints, place, row)?;
        place += 8;
        rest = after;
    }
    Ok(rest)
}

/// Checks the queue rows of all types.
pub(crate) fn check_queue(
    header: Header,
    nodes: &NodeRecords,
    at: usize,
    types: &[u8],
    bytes: &[u8],
) -> Result<(), ObjectError>
    requires types { 16 * header.types ≤ length types.now }
    requires there { 8 * header.queue ≤ length bytes.now }
    requires places { at + 8 * header.queue ≤ 2 ^ 27 }
    requires ends { AreEnds queue_end_of header.queue 0 (rows type_layout header.types types.now) }
    ensures { Finds result (queues_broken header nodes.now 0 at (rows type_layout header.types types.now) bytes.now) }
{
    let mut place = at;
    let mut start: u32 = 0;
    let mut heads = types;
    let mut rest = bytes;
    for _ in 0..header.types {
        let (head, after) = heads.split_at(16);
        let row = TypeRow::read(head);
        let count = row.queue - start;
        rest = check_type_queue(nodes, row.ints, place, count, rest)?;
        place += 8 * count as usize;
        start = row.queue;
        heads = after;
    }
    check(start == header.queue, ObjectError::Order { at: place })
}
