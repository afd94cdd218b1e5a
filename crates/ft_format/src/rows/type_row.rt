//! The numbers of a type's record: where its register rows and its queue rows end, its memory, how many
//! variables it has, and padding.
ghost use Rattle.std.specs.Prelude.{◌≡◌, ◌≤◌, length, OnOk};
ghost use Rattle.ft_format.specs.Layout.{numbers, written, type_layout};
ghost use Rattle.ft_format.specs.Puts.{Puts};
ghost use Rattle.ft_format.specs.Fields.{type_numbers};

use crate::numbers::{put, read_u8, read_u32, type_bytes};
use ft_isa::NoMemory;

/// The numbers of a type's record: where its register rows and its queue rows end, its memory, how many
/// variables it has, and padding.
#[derive(Clone, Copy)]
pub struct TypeRow {
    pub regs: u32,
    pub queue: u32,
    pub memory: u32,
    pub ints: u8,
    pub pad0: u8,
    pub pad1: u8,
    pub pad2: u8,
}

impl TypeRow {
    /// Reads the record in the first 16 bytes.
    #[tactic(auto, unfolding(crate::specs::Layout::numbers))]
    pub fn read(bytes: &[u8]) -> TypeRow
        requires { 16 ≤ length bytes.now }
        ensures { type_numbers result ≡ numbers type_layout bytes.now }
    {
        let (regs, rest) = read_u32(bytes);
        let (queue, rest) = read_u32(rest);
        let (memory, rest) = read_u32(rest);
        let (ints, rest) = read_u8(rest);
        let (pad0, rest) = read_u8(rest);
        let (pad1, rest) = read_u8(rest);
        let (pad2, _) = read_u8(rest);
        TypeRow {
            regs,
            queue,
            memory,
            ints,
            pad0,
            pad1,
            pad2,
        }
    }

    /// Appends the record's bytes. If memory runs out, some of them may have been appended.
    #[inline(always)]
    pub fn write(self, out: &mut Vec<u8>) -> Result<(), NoMemory>
        ensures { OnOk result (Puts out.old.items out.new.items (written type_layout (type_numbers self))) }
    {
        let bytes = type_bytes(
            self.regs,
            self.queue,
            self.memory,
            self.ints,
            self.pad0,
            self.pad1,
            self.pad2,
        );
        put(out, &bytes)
    }
}
