//! The number of a substitution row: a node.
ghost use Rattle.std.specs.Prelude.{◌≡◌, ◌≤◌, length, OnOk};
ghost use Rattle.ft_format.specs.Layout.{numbers, written, subst_layout};
ghost use Rattle.ft_format.specs.Puts.{Puts};
ghost use Rattle.ft_format.specs.Fields.{subst_numbers};

use crate::numbers::{put_u32, read_u32};
use ft_isa::NoMemory;

/// The number of a substitution row: a node.
#[derive(Clone, Copy)]
pub struct SubstRow {
    pub node: u32,
}

impl SubstRow {
    /// Reads the record in the first 4 bytes.
    #[tactic(auto, unfolding(crate::specs::Layout::numbers))]
    pub fn read(bytes: &[u8]) -> SubstRow
        requires { 4 ≤ length bytes.now }
        ensures { subst_numbers result ≡ numbers subst_layout bytes.now }
    {
        let (node, _) = read_u32(bytes);
        SubstRow { node }
    }

    /// Appends the record's bytes. If memory runs out, some of them may have been appended.
    #[tactic(auto, unfolding(crate::specs::Layout::written))]
    pub fn write(self, out: &mut Vec<u8>) -> Result<(), NoMemory>
        ensures { OnOk result (Puts out.old.items out.new.items (written subst_layout (subst_numbers self))) }
    {
        put_u32(out, self.node)
    }
}
