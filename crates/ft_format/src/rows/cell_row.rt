//! The numbers of a cell's record: where its name ends, its basic type, its initial word.
ghost use Rattle.std.specs.Prelude.{◌≡◌, ◌≤◌, length, OnOk};
ghost use Rattle.ft_format.specs.Layout.{numbers, written, cell_layout};
ghost use Rattle.ft_format.specs.Puts.{Puts};
ghost use Rattle.ft_format.specs.Fields.{cell_numbers};

use crate::numbers::{cell_bytes, put, read_u8, read_u16, read_u32, read_u64};
use ft_isa::NoMemory;

/// The numbers of a cell's record: where its name ends, its basic type, its initial word.
#[derive(Clone, Copy)]
pub struct CellRow {
    pub past: u32,
    pub refs: u8,
    pub base: u8,
    pub code_type: u16,
    pub init: u64,
}

impl CellRow {
    /// Reads the record in the first 16 bytes.
    #[tactic(auto, unfolding(crate::specs::Layout::numbers))]
    pub fn read(bytes: &[u8]) -> CellRow
        requires { 16 ≤ length bytes.now }
        ensures { cell_numbers result ≡ numbers cell_layout bytes.now }
    {
        let (past, rest) = read_u32(bytes);
        let (refs, rest) = read_u8(rest);
        let (base, rest) = read_u8(rest);
        let (code_type, rest) = read_u16(rest);
        let (init, _) = read_u64(rest);
        CellRow {
            past,
            refs,
            base,
            code_type,
            init,
        }
    }

    /// Appends the record's bytes. If memory runs out, some of them may have been appended.
    #[inline(always)]
    pub fn write(self, out: &mut Vec<u8>) -> Result<(), NoMemory>
        ensures { OnOk result (Puts out.old.items out.new.items (written cell_layout (cell_numbers self))) }
    {
        let bytes = cell_bytes(self.past, self.refs, self.base, self.code_type, self.init);
        put(out, &bytes)
    }
}
