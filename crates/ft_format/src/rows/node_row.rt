//! The numbers of a node's record: kind, operation, scope, padding, and the parts a, b and c.
ghost use Rattle.std.specs.Prelude.{◌≡◌, ◌≤◌, length, OnOk};
ghost use Rattle.ft_types.specs.NodeRows.{row_words};
ghost use Rattle.ft_format.specs.Layout.{numbers, written, code_layout};
ghost use Rattle.ft_format.specs.Puts.{Puts};
ghost use Rattle.ft_format.specs.Fields.{node_numbers};

use crate::numbers::{code_words, put_words, read_u8, read_u32};
use ft_isa::NoMemory;
use ft_types::row_words;

/// The numbers of a node's record: kind, operation, scope, padding, and the parts a, b and c. For a word, b and c are
/// its upper and lower halves.
#[derive(Clone, Copy)]
pub struct NodeRow {
    pub kind: u8,
    pub op: u8,
    pub scope: u8,
    pub pad: u8,
    pub a: u32,
    pub b: u32,
    pub c: u32,
}

impl NodeRow {
    /// Reads the record in the first 16 bytes.
    #[tactic(auto, unfolding(crate::specs::Layout::numbers))]
    pub fn read(bytes: &[u8]) -> NodeRow
        requires { 16 ≤ length bytes.now }
        ensures { node_numbers result ≡ numbers code_layout bytes.now }
    {
        let (kind, rest) = read_u8(bytes);
        let (op, rest) = read_u8(rest);
        let (scope, rest) = read_u8(rest);
        let (pad, rest) = read_u8(rest);
        let (a, rest) = read_u32(rest);
        let (b, rest) = read_u32(rest);
        let (c, _) = read_u32(rest);
        NodeRow {
            kind,
            op,
            scope,
            pad,
            a,
            b,
            c,
        }
    }

    /// The two halves of the record, each a big-endian number.
    pub fn words(self) -> (u64, u64)
        ensures { result ≡ row_words (node_numbers self) }
    {
        row_words(
            self.kind, self.op, self.scope, self.pad, self.a, self.b, self.c,
        )
    }

    /// Appends the record's bytes. If memory runs out, some of them may have been appended.
    #[inline(always)]
    pub fn write(self, out: &mut Vec<u8>) -> Result<(), NoMemory>
        ensures { OnOk result (Puts out.old.items out.new.items (written code_layout (node_numbers self))) }
    {
        let words = code_words(
            self.kind, self.op, self.scope, self.pad, self.a, self.b, self.c,
        );
        put_words(out, words)
    }
}
