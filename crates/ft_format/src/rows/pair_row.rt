//! The numbers of a queue row (address, value) or of a block (first instruction, code type).
ghost use Rattle.std.specs.Prelude.{◌≡◌, ◌≤◌, length, OnOk};
ghost use Rattle.ft_format.specs.Layout.{numbers, written, pair_layout};
ghost use Rattle.ft_format.specs.Puts.{Puts};
ghost use Rattle.ft_format.specs.Fields.{pair_numbers};

use crate::numbers::{pair_bytes, put, read_u32};
use ft_isa::NoMemory;

/// The numbers of a queue row, its address and its value, or of a block, its first instruction and its code
/// type.
#[derive(Clone, Copy)]
pub struct PairRow {
    pub first: u32,
    pub second: u32,
}

impl PairRow {
    /// Reads the record in the first 8 bytes.
    #[tactic(auto, unfolding(crate::specs::Layout::numbers))]
    pub fn read(bytes: &[u8]) -> PairRow
        requires { 8 ≤ length bytes.now }
        ensures { pair_numbers result ≡ numbers pair_layout bytes.now }
    {
        let (first, rest) = read_u32(bytes);
        let (second, _) = read_u32(rest);
        PairRow { first, second }
    }

    /// Appends the record's bytes. If memory runs out, some of them may have been appended.
    #[inline(always)]
    pub fn write(self, out: &mut Vec<u8>) -> Result<(), NoMemory>
        ensures { OnOk result (Puts out.old.items out.new.items (written pair_layout (pair_numbers self))) }
    {
        put(out, &pair_bytes(self.first, self.second))
    }
}
