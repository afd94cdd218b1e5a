//! The numbers of an instruction's record: kind, a, b, c, x, and the two halves of v.
ghost use Rattle.std.specs.Prelude.{◌≡◌, ◌≤◌, length, OnOk};
ghost use Rattle.ft_format.specs.Layout.{numbers, written, code_layout};
ghost use Rattle.ft_format.specs.Puts.{Puts};
ghost use Rattle.ft_format.specs.Fields.{code_numbers};

use crate::numbers::{code_words, put_words, read_u8, read_u32};
use ft_isa::NoMemory;

/// The numbers of an instruction's record: kind, a, b, c, x, and the two halves of v.
#[derive(Clone, Copy)]
pub struct CodeRow {
    pub kind: u8,
    pub a: u8,
    pub b: u8,
    pub c: u8,
    pub x: u32,
    pub high: u32,
    pub low: u32,
}

impl CodeRow {
    /// Reads the record in the first 16 bytes.
    #[tactic(auto, unfolding(crate::specs::Layout::numbers))]
    pub fn read(bytes: &[u8]) -> CodeRow
        requires { 16 ≤ length bytes.now }
        ensures { code_numbers result ≡ numbers code_layout bytes.now }
    {
        let (kind, rest) = read_u8(bytes);
        let (a, rest) = read_u8(rest);
        let (b, rest) = read_u8(rest);
        let (c, rest) = read_u8(rest);
        let (x, rest) = read_u32(rest);
        let (high, rest) = read_u32(rest);
        let (low, _) = read_u32(rest);
        CodeRow {
            kind,
            a,
            b,
            c,
            x,
            high,
            low,
        }
    }

    /// Appends the record's bytes. If memory runs out, some of them may have been appended.
    #[inline(always)]
    pub fn write(self, out: &mut Vec<u8>) -> Result<(), NoMemory>
        ensures { OnOk result (Puts out.old.items out.new.items (written code_layout (code_numbers self))) }
    {
        let words = code_words(
            self.kind, self.a, self.b, self.c, self.x, self.high, self.low,
        );
        put_words(out, words)
    }
}
