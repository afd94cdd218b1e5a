//! The numbers of the header: magic and version, the number of records in each section, and the entry block.
ghost use Rattle.std.specs.Prelude.{◌≡◌, ◌≤◌, length, OnOk};
ghost use Rattle.ft_format.specs.Layout.{numbers, written, header_layout};
ghost use Rattle.ft_format.specs.Puts.{Puts};
ghost use Rattle.ft_format.specs.Fields.{header_numbers};
ghost use Rattle.ft_format.specs.Versions.{version_of};

use crate::numbers::{put_u32, put_u64, read_u32, read_u64};
use crate::version::Version;
use ft_isa::NoMemory;

/// The numbers of the header: magic and version, the number of records in each section (of bytes, for the names), and
/// the entry block.
#[derive(Clone, Copy)]
pub struct Header {
    pub magic: u64,
    pub cells: u32,
    pub nodes: u32,
    pub types: u32,
    pub regs: u32,
    pub queue: u32,
    pub blocks: u32,
    pub instrs: u32,
    pub substs: u32,
    pub names: u32,
    pub entry: u32,
}

impl Header {
    /// Reads the record in the first 48 bytes.
    #[tactic(auto, unfolding(crate::specs::Layout::numbers))]
    pub fn read(bytes: &[u8]) -> Header
        requires { 48 ≤ length bytes.now }
        ensures { header_numbers result ≡ numbers header_layout bytes.now }
    {
        let (magic, rest) = read_u64(bytes);
        let (cells, rest) = read_u32(rest);
        let (nodes, rest) = read_u32(rest);
        let (types, rest) = read_u32(rest);
        let (regs, rest) = read_u32(rest);
        let (queue, rest) = read_u32(rest);
        let (blocks, rest) = read_u32(rest);
        let (instrs, rest) = read_u32(rest);
        let (substs, rest) = read_u32(rest);
        let (names, rest) = read_u32(rest);
        let (entry, _) = read_u32(rest);
        Header {
            magic,
            cells,
            nodes,
            types,
            regs,
            queue,
            blocks,
            instrs,
            substs,
            names,
            entry,
        }
    }

    /// The version that the magic number names.
    pub fn version(self) -> Version
        ensures { result ≡ version_of self }
    {
        if self.magic == Version::First.magic() {
            Version::First
        } else {
            Version::Second
        }
    }

    /// Appends the record's bytes. If memory runs out, some of them may have been appended.
    #[tactic(auto, unfolding(crate::specs::Layout::written))]
    pub fn write(self, out: &mut Vec<u8>) -> Result<(), NoMemory>
        ensures { OnOk result (Puts out.old.items out.new.items (written header_layout (header_numbers self))) }
    {
        put_u64(out, self.magic)?;
        put_u32(out, self.cells)?;
        put_u32(out, self.nodes)?;
        put_u32(out, self.types)?;
        put_u32(out, self.regs)?;
        put_u32(out, self.queue)?;
        put_u32(out, self.blocks)?;
        put_u32(out, self.instrs)?;
        put_u32(out, self.substs)?;
        put_u32(out, self.names)?;
        put_u32(out, self.entry)?;
        Ok(())
    }
}
