//! Queue rows: what each type says about pending stores.
ghost use Rattle.std.specs.Prelude.{◌≤◌, ◌^◌};
ghost use Rattle.ft_view.specs.Found.{Finds};
ghost use Rattle.ft_format.specs.Fields.{pair_numbers};
ghost use Rattle.ft_format.specs.Rules.{queue_broken};

use crate::node_records::NodeRecords;
use crate::rules::check_named;
use ft_format::{ObjectError, PairRow};

/// Checks the record of a queue row of a type with this many variables: `Index` and `Kind` for its nodes.
pub fn check_queue_row(
    nodes: &NodeRecords,
    ints: u8,
    at: usize,
    row: PairRow,
) -> Result<(), ObjectError>
    requires { at ≤ 2 ^ 27 }
    ensures { Finds result (queue_broken nodes.now ints at (pair_numbers row)) }
{
    check_named(nodes, ints, false, at, row.first)?;
    check_named(nodes, ints, false, at + 4, row.second)
}
