//! Programs: objects in any representation.
ghost use Rattle.std.specs.Prelude.{◌≡◌, ◌<◌, ◌*◌, ◌/◌, ◌^◌, Some, length, slice_get};
ghost use Rattle.std.specs.Option.{option_map};
ghost use Rattle.ft_types.specs.Objects.{block_end};
ghost use Rattle.ft_types.specs.Spellable.{IsSpellable};

use crate::object::{Block, CellHead, Counts, Object, RegType, TypeHead};
use crate::words::node_words;
use ft_isa::Instr;
use ft_static::{Node, Nodes};

/// The size of an instruction in the object format, in bytes.
pub const INSTR_BYTES: usize = 16;

/// An object in any representation. It represents one `Object`, and each call returns a part of it.
pub trait Program: Nodes {
    ghost use Rattle.ft_types.specs.NodeRows.{node_words};
    ghost use Rattle.ft_types.specs.Objects.{IsCounted, cell_head_of, name_of, type_head_of, reg_rows, queue_rows};
    ghost use Rattle.ft_types.specs.declared.object.Object.{Object};

    ghost object: { Self → Object };

    /// What a loop keeps while it fetches one instruction after another: for instance a slice of their records, so that
    /// no fetch has to find them again.
    type Code: Copy;

    // Whether a value is the result of `code` for the program. An implementation whose `fetch` ignores the value may
    // allow any.
    ghost is_code: { Self → Self.Code → Type 0 };

    /// How many parts of each kind there are.
    fn counts(&self) -> Counts
        requires { IsCounted (object self.now) }
        ensures cells { result.cells ≡ length (object self.now).cells }
        ensures types { result.types ≡ length (object self.now).types }
        ensures blocks { result.blocks ≡ length (object self.now).blocks }
        ensures instrs { result.instrs ≡ length (object self.now).instrs }
        ensures substs { result.substs ≡ length (object self.now).substs };

    /// The number of the block in which a run begins.
    fn entry(&self) -> u32
        ensures { result ≡ (object self.now).entry };

    /// Instruction `i`.
    fn instr(&self, i: u32) -> Instr
        requires { i < length (object self.now).instrs }
        ensures { slice_get (object self.now).instrs i ≡ Some result };

    /// The value from which `fetch` fetches instructions.
    fn code(&self) -> Self::Code
        ensures { is_code self.now result };

    /// The instruction `at` bytes after the first one, from the result of `code`; each instruction takes `INSTR_BYTES`
    /// bytes. A loop counts these bytes, so that no fetch has to multiply.
    fn fetch(&self, code: Self::Code, at: usize) -> Instr
        requires there { at / 16 < length (object self.now).instrs }
        requires whole { at ≡ 16 * (at / 16) }
        requires code { is_code self.now code }
        ensures { slice_get (object self.now).instrs (at / 16) ≡ Some result };

    /// Block `b`.
    fn block(&self, b: u32) -> Block
        requires { b < length (object self.now).blocks }
        ensures { slice_get (object self.now).blocks b ≡ Some result };

    /// Code type `t` without its rows.
    fn code_type(&self, t: u32) -> TypeHead
        requires counted { IsCounted (object self.now) }
        requires there { t < length (object self.now).types }
        ensures { option_map type_head_of (slice_get (object self.now).types t) ≡ Some result };

    /// Register row `j` of code type `t`, counted from 0 in the type.
    fn reg_row(&self, t: u32, j: u32) -> RegType
        requires there { t < length (object self.now).types }
        requires row { j < length (reg_rows (object self.now) t) }
        ensures { slice_get (reg_rows (object self.now) t) j ≡ Some result };

    /// Queue row `j` of code type `t`, counted from 0 in the type: the nodes of an address and a value.
    fn queue_row(&self, t: u32, j: u32) -> (u32, u32)
        requires there { t < length (object self.now).types }
        requires row { j < length (queue_rows (object self.now) t) }
        ensures { slice_get (queue_rows (object self.now) t) j ≡ Some result };

    /// Substitution row `n`: a node.
    fn subst_row(&self, n: u32) -> u32
        requires { n < length (object self.now).substs }
        ensures { slice_get (object self.now).substs n ≡ Some result };

    /// The basic type and the initial word of cell `k`.
    fn cell(&self, k: u32) -> CellHead
        requires { k < length (object self.now).cells }
        ensures { option_map cell_head_of (slice_get (object self.now).cells k) ≡ Some result };

    /// The name of cell `k`.
    fn name(&self, k: u32) -> &[u8]
        requires { k < length (object self.now).cells }
        ensures { option_map name_of (slice_get (object self.now).cells k) ≡ Some result.now };

    /// Node `n` as two words: the two halves of its record in the object format, each read as a big-endian number.
    fn node_words(&self, n: u32) -> (u64, u64)
        requires { n < length (Self.nodes self.now) }
        ensures { option_map node_words (slice_get (Self.nodes self.now) n) ≡ Some result }
    {
        node_words(self.node(n))
    }

    /// A program's nodes are its object's.
    ghost nodes_are: { (p : Self) → Self.nodes p ≡ (object p).nodes };
}

impl Nodes for Object {
    ghost nodes = { λ o. o.nodes };

    fn node_count(&self) -> u32 {
        self.nodes.len() as u32
    }

    fn node(&self, n: u32) -> Node {
        *self.nodes.at(n as usize)
    }
}

impl Program for Object {
    ghost use Rattle.std.specs.Prelude.{refl, ⊤};

    ghost object = { λ o. o };

    type Code = ();

    ghost is_code = { λ o c. ⊤ };

    ghost nodes_are = { λ o. refl };

    fn counts(&self) -> Counts {
        Counts {
            cells: self.cells.len() as u32,
            types: self.types.len() as u32,
            blocks: self.blocks.len() as u32,
            instrs: self.instrs.len() as u32,
            substs: self.substs.len() as u32,
        }
    }

    fn entry(&self) -> u32 {
        self.entry
    }

    fn instr(&self, i: u32) -> Instr {
        *self.instrs.at(i as usize)
    }

    fn code(&self) {}

    fn fetch(&self, _: (), at: usize) -> Instr {
        *self.instrs.at(at / INSTR_BYTES)
    }

    fn block(&self, b: u32) -> Block {
        *self.blocks.at(b as usize)
    }

    fn code_type(&self, t: u32) -> TypeHead {
        let code_type = self.types.at(t as usize);
        TypeHead {
            ints: code_type.ints,
            regs: code_type.regs.len() as u32,
            queue: code_type.queue.len() as u32,
            memory: code_type.memory,
        }
    }

    fn reg_row(&self, t: u32, j: u32) -> RegType {
        *self.types.at(t as usize).regs.at(j as usize)
    }

    fn queue_row(&self, t: u32, j: u32) -> (u32, u32) {
        *self.types.at(t as usize).queue.at(j as usize)
    }

    fn subst_row(&self, n: u32) -> u32 {
        *self.substs.at(n as usize)
    }

    fn cell(&self, k: u32) -> CellHead {
        let cell = self.cells.at(k as usize);
        CellHead {
            basic: cell.basic,
            init: cell.init,
        }
    }

    fn name(&self, k: u32) -> &[u8] {
        self.cells.at(k as usize).name.as_slice()
    }
}

/// Where block `b` ends: where the next block begins, or after the last instruction.
pub fn end_of<P: Program>(program: &P, b: u32) -> u32
    requires spellable { IsSpellable (P.object program.now) }
    requires there { b < length (P.object program.now).blocks }
    ensures { result ≡ block_end (P.object program.now) b }
{
    let counts = program.counts();
    if b + 1 < counts.blocks {
        return program.block(b + 1).start;
    }
    counts.instrs
}
