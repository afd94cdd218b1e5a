//! Nodes, kept as their records.
ghost use Rattle.std.specs.Prelude.{◌≡◌, ◌<◌, ◌≤◌, ◌*◌, Some, length, map, nat_lt, slice_get};
ghost use Rattle.ft_format.specs.Fields.{node_numbers};
ghost use Rattle.ft_format.specs.Layout.{rows, code_layout};
ghost use Rattle.ft_format.specs.Rules.{is_of_sort, is_within};
ghost use Rattle.ft_format.specs.NodeRecords.{node_of};

use crate::byte_part::stretch;
use ft_format::NodeRow;
use std::marker::Model;

/// Records of nodes, one after the other. Their model is the list of nodes that they encode.
#[derive(Drop)]
pub struct NodeRecords<'a> {
    count: u32,
    bytes: &'a [u8],
}

impl<'a> Model for NodeRecords<'a> {
    ghost use Rattle.std.specs.Prelude.{◌≤◌, ◌*◌, List, length, map};
    ghost use Rattle.ft_static.specs.declared.node.Node.{Node};
    ghost use Rattle.ft_format.specs.Layout.{rows, code_layout};
    ghost use Rattle.ft_format.specs.NodeRecords.{node_of};

    ghost Value = { List Node };

    ghost view = { λ r. map node_of (rows code_layout r.count r.bytes.now) };

    ghost invariant = { λ r. 16 * r.count ≤ length r.bytes.now };
}

impl<'a> NodeRecords<'a> {
    /// The nodes of the first `count` records in the bytes.
    pub fn new(count: u32, bytes: &'a [u8]) -> NodeRecords<'a>
        requires { 16 * count ≤ length bytes.now }
        ensures { result ≡ map node_of (rows code_layout count bytes.now) }
    {
        NodeRecords { count, bytes }
    }

    /// Whether there is a node with this number.
    pub(crate) fn has(&self, n: u32) -> bool
        ensures { result ≡ nat_lt n (length self.now) }
    {
        n < self.count
    }

    /// The record of node `n`.
    fn row(&self, n: u32) -> NodeRow
        requires { n < length self.now }
        ensures { slice_get self.now n ≡ Some (node_of (node_numbers result)) }
    {
        NodeRow::read(stretch(self.bytes, 16 * n as usize, 16))
    }

    /// Whether node `n` has the required sort, memory or integer.
    #[tactic(auto, using(crate::proofs::NodeRows::memory_sort, crate::proofs::NodeRows::integer_sort))]
    pub(crate) fn is_of_sort(&self, memory: bool, n: u32) -> bool
        requires { n < length self.now }
        ensures { result ≡ is_of_sort memory (slice_get self.now n) }
    {
        let row = self.row(n);
        let is_memory = row.kind == 4 || row.kind == 5;
        if memory { is_memory } else { !is_memory }
    }

    /// Whether the scope of node `n` is at most `scope`.
    #[tactic(auto, using(crate::proofs::NodeRows::scope_is))]
    pub(crate) fn is_within(&self, scope: u8, n: u32) -> bool
        requires { n < length self.now }
        ensures { result ≡ is_within scope (slice_get self.now n) }
    {
        self.row(n).scope <= scope
    }
}
