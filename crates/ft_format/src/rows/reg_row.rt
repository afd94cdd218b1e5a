//! The numbers of a register row: register, colour, padding, basic type, expression.
ghost use Rattle.std.specs.Prelude.{◌≡◌, ◌≤◌, length, OnOk};
ghost use Rattle.ft_format.specs.Layout.{numbers, written, reg_layout};
ghost use Rattle.ft_format.specs.Puts.{Puts};
ghost use Rattle.ft_format.specs.Fields.{reg_numbers};

use crate::numbers::{put, read_u8, read_u16, read_u32, reg_bytes};
use ft_isa::NoMemory;

/// The numbers of a register row: register, colour, padding, basic type, expression.
#[derive(Clone, Copy)]
pub struct RegRow {
    pub reg: u8,
    pub colour: u8,
    pub pad: u16,
    pub refs: u8,
    pub base: u8,
    pub code_type: u16,
    pub expr: u32,
}

impl RegRow {
    /// Reads the record in the first 12 bytes.
    #[tactic(auto, unfolding(crate::specs::Layout::numbers))]
    pub fn read(bytes: &[u8]) -> RegRow
        requires { 12 ≤ length bytes.now }
        ensures { reg_numbers result ≡ numbers reg_layout bytes.now }
    {
        let (reg, rest) = read_u8(bytes);
        let (colour, rest) = read_u8(rest);
        let (pad, rest) = read_u16(rest);
        let (refs, rest) = read_u8(rest);
        let (base, rest) = read_u8(rest);
        let (code_type, rest) = read_u16(rest);
        let (expr, _) = read_u32(rest);
        RegRow {
            reg,
            colour,
            pad,
            refs,
            base,
            code_type,
            expr,
        }
    }

    /// Appends the record's bytes. If memory runs out, some of them may have been appended.
    #[inline(always)]
    pub fn write(self, out: &mut Vec<u8>) -> Result<(), NoMemory>
        ensures { OnOk result (Puts out.old.items out.new.items (written reg_layout (reg_numbers self))) }
    {
        let bytes = reg_bytes(
            self.reg,
            self.colour,
            self.pad,
            self.refs,
            self.base,
            self.code_type,
            self.expr,
        );
        put(out, &bytes)
    }
}
