//! Objects, viewed in place.
ghost use Rattle.std.specs.Prelude.{◌≡◌, ◌<◌, ◌≤◌, ◌^◌, ◌↔◌, ◌+◌, ◌*◌, ◌/◌, None, Some, length, slice_get, IfOk};

use crate::block::read_block;
use crate::byte_part::stretch;
use crate::cell::read_cell;
use crate::instr::instr_in;
use crate::node::read_node;
use crate::reg::read_reg;
use crate::section::Section;
use crate::tables::judge;
use ft_format::{
    CellRow, Header, NodeRow, ObjectError, PairRow, Places, RegRow, SubstRow, TypeRow,
};
use ft_isa::Instr;
use ft_static::{Node, Nodes};
use ft_types::{Block, CellHead, Counts, INSTR_BYTES, Program, RegType, TypeHead};
use std::marker::Model;

/// Bytes that spell an object. A view's model is its bytes, which spell exactly one object (`object_of`).
#[derive(Drop)]
pub struct View<'a> {
    header: Header,
    at: Places,
    bytes: &'a [u8],
}

impl<'a> Model for View<'a> {
    ghost use Rattle.std.specs.Prelude.{ℕ, List};
    ghost use Rattle.ft_view.specs.Viewed.{IsView};

    ghost Value = { List ℕ };

    ghost view = { λ v. v.bytes.now };

    ghost invariant = { λ v. IsView v.header v.at v.bytes.now };
}

impl<'a> View<'a> {
    ghost use Rattle.std.specs.Option.{option_map};
    ghost use Rattle.std.specs.Prelude.{take};
    ghost use Rattle.ft_types.specs.Objects.{name_of};
    ghost use Rattle.ft_types.specs.NodeRows.{node_row};
    ghost use Rattle.ft_format.specs.NodeRecords.{node_of};
    ghost use Rattle.ft_format.specs.Values.{past_of, regs_end_of, queue_end_of};
    ghost use Rattle.ft_format.specs.Fields.{cell_numbers, node_numbers, type_numbers, reg_numbers, pair_numbers, subst_numbers};
    ghost use Rattle.ft_format.specs.Broken.{header_at, version_at, instr_rows_of, object_of, broken};
    ghost use Rattle.ft_format.specs.declared.version.Version.{Version};
    ghost use Rattle.ft_format.specs.Format.{Spells};
    ghost use Rattle.ft_view.specs.Found.{Finds};
    ghost use Rattle.ft_types.specs.declared.object.Object.{Object};
    ghost use Rattle.ft_format.specs.Layout.{numbers, code_layout};
    ghost use Rattle.ft_view.specs.Sections.{section_at, section_size, section_of};
    ghost use Rattle.ft_view.specs.Known.{IsKnown};
    ghost use Rattle.ft_view.specs.Viewed.{last_end, cell_records, node_records, type_records, reg_records, queue_records, block_records, subst_records};

    /// A view of the object that the bytes spell, or the first rule of the format that the bytes break, with its place.
    pub fn over(bytes: &'a [u8]) -> Result<View<'a>, ObjectError>
        // An error is the first rule broken, and none is broken if a view is returned.
        ensures judged { Finds result (broken bytes.now) }
        // A view's model is its bytes.
        ensures seen { IfOk result (λ v. v ≡ bytes.now) }
        // The bytes spell the object that is viewed, and no other.
        ensures spelled { IfOk result (λ v. Spells bytes.now (version_at bytes.now) (object_of v)) }
        ensures one { (version : Version) (o : Object) → Spells bytes.now version o → IfOk result (λ v. object_of v ≡ o) }
        // No rule is broken exactly when the bytes spell some object.
        ensures exact { (broken bytes.now ≡ None) ↔ ((version : Version) × (o : Object) × Spells bytes.now version o) }
    {
        let header = judge(bytes)?;
        Ok(View {
            header,
            at: Places::of(header),
            bytes,
        })
    }

    /// A view of bytes that are known to spell an object: those of a view made before. It reads only the header.
    pub fn again(bytes: &'a [u8]) -> View<'a>
        requires unbroken { broken bytes.now ≡ None }
        ensures seen { result ≡ bytes.now }
    {
        let header = Header::read(bytes);
        View {
            header,
            at: Places::of(header),
            bytes,
        }
    }

    /// The numbers of the record of cell `i`.
    fn cell_record(&self, i: u32) -> CellRow
        requires { i < (header_at self.now).cells }
        ensures { slice_get (cell_records self.now) i ≡ Some (cell_numbers result) }
    {
        CellRow::read(stretch(self.bytes, 48 + 16 * i as usize, 16))
    }

    /// The numbers of the record of node `i`.
    fn node_record(&self, i: u32) -> NodeRow
        requires { i < (header_at self.now).nodes }
        ensures there { slice_get (node_records self.now) i ≡ Some (node_numbers result) }
        ensures written { node_row (node_of (node_numbers result)) ≡ node_numbers result }
        ensures variable { result.kind ≡ 1 → result.a < 256 }
    {
        NodeRow::read(stretch(self.bytes, self.at.nodes + 16 * i as usize, 16))
    }

    /// The numbers of the record of code type `i`.
    fn type_record(&self, i: u32) -> TypeRow
        requires { i < (header_at self.now).types }
        ensures { slice_get (type_records self.now) i ≡ Some (type_numbers result) }
    {
        TypeRow::read(stretch(self.bytes, self.at.types + 16 * i as usize, 16))
    }

    /// The numbers of the record of register row `i`, counted over all code types.
    fn reg_record(&self, i: u32) -> RegRow
        requires { i < (header_at self.now).regs }
        ensures there { slice_get (reg_records self.now) i ≡ Some (reg_numbers result) }
        ensures register { result.reg < 64 }
    {
        RegRow::read(stretch(self.bytes, self.at.regs + 12 * i as usize, 12))
    }

    /// The numbers of the record of queue row `i`, counted over all code types.
    fn queue_record(&self, i: u32) -> PairRow
        requires { i < (header_at self.now).queue }
        ensures { slice_get (queue_records self.now) i ≡ Some (pair_numbers result) }
    {
        PairRow::read(stretch(self.bytes, self.at.queue + 8 * i as usize, 8))
    }

    /// The numbers of the record of block `i`.
    fn block_record(&self, i: u32) -> PairRow
        requires { i < (header_at self.now).blocks }
        ensures { slice_get (block_records self.now) i ≡ Some (pair_numbers result) }
    {
        PairRow::read(stretch(self.bytes, self.at.blocks + 8 * i as usize, 8))
    }

    /// The numbers of the record of substitution row `i`.
    fn subst_record(&self, i: u32) -> SubstRow
        requires { i < (header_at self.now).substs }
        ensures { slice_get (subst_records self.now) i ≡ Some (subst_numbers result) }
    {
        SubstRow::read(stretch(self.bytes, self.at.substs + 4 * i as usize, 4))
    }

    /// The bytes of the instruction's record that begins at this place in the section of instructions.
    #[inline(always)]
    fn record_in<'c>(&self, code: &'c [u8], at: usize) -> &'c [u8]
        requires there { at / 16 < (header_at self.now).instrs }
        requires whole { at ≡ 16 * (at / 16) }
        requires code { code.now ≡ section_of Section.Instrs self.now }
        ensures long { 16 ≤ length result.now }
        ensures there { slice_get (instr_rows_of (header_at self.now) self.now) (at / 16) ≡ Some (numbers code_layout result.now) }
        ensures known { IsKnown result.now }
    {
        // The proof knows the view's invariant only where a field is read, so one is read here.
        let _ = &self.header;
        stretch(code, at, INSTR_BYTES)
    }

    /// Where the register rows and the queue rows of code type `t` begin.
    fn rows_before(&self, t: u32) -> (u32, u32)
        requires { t ≤ (header_at self.now).types }
        ensures regs { result.0 ≡ last_end regs_end_of 0 (take t (type_records self.now)) }
        ensures queue { result.1 ≡ last_end queue_end_of 0 (take t (type_records self.now)) }
    {
        if t == 0 {
            return (0, 0);
        }
        let row = self.type_record(t - 1);
        (row.regs, row.queue)
    }

    /// Where the name of cell `k` begins in the name bytes.
    fn name_before(&self, k: u32) -> u32
        requires { k ≤ (header_at self.now).cells }
        ensures { result ≡ last_end past_of 0 (take k (cell_records self.now)) }
    {
        if k == 0 {
            return 0;
        }
        self.cell_record(k - 1).past
    }

    /// Where a section begins and where it ends.
    fn stretch_of(&self, section: Section) -> (usize, usize)
        ensures at { result.0 ≡ section_at (header_at self.now) section }
        ensures end { result.1 ≡ section_at (header_at self.now) section + section_size (header_at self.now) section }
        ensures within { result.1 ≤ length self.now }
    {
        let at = &self.at;
        match section {
            Section::Cells => (48, at.nodes),
            Section::Nodes => (at.nodes, at.types),
            Section::Types => (at.types, at.regs),
            Section::Regs => (at.regs, at.queue),
            Section::Queue => (at.queue, at.blocks),
            Section::Blocks => (at.blocks, at.instrs),
            Section::Instrs => (at.instrs, at.substs),
            Section::Substs => (at.substs, at.names),
            Section::Names => (at.names, at.end),
        }
    }

    /// The bytes, which may outlive the view.
    pub fn bytes(&self) -> &'a [u8]
        ensures { result.now ≡ self.now }
    {
        self.bytes
    }

    /// The bytes of a section, as a slice of the view's bytes.
    pub fn section(&self, section: Section) -> &'a [u8]
        ensures { result.now ≡ section_of section self.now }
    {
        let (at, end) = self.stretch_of(section);
        stretch(self.bytes, at, end - at)
    }

    /// The name of cell `k`, as a slice of the view's bytes.
    pub fn name_of(&self, k: u32) -> &'a [u8]
        requires { k < length (object_of self.now).cells }
        ensures { option_map name_of (slice_get (object_of self.now).cells k) ≡ Some result.now }
    {
        let start = self.name_before(k);
        let past = self.cell_record(k).past;
        stretch(
            self.bytes,
            self.at.names + start as usize,
            (past - start) as usize,
        )
    }
}

impl<'a> Nodes for View<'a> {
    ghost use Rattle.ft_format.specs.Broken.{object_of};

    ghost nodes = { λ v. (object_of v).nodes };

    fn node_count(&self) -> u32 {
        self.header.nodes
    }

    fn node(&self, n: u32) -> Node {
        read_node(self.node_record(n))
    }
}

impl<'a> Program for View<'a> {
    ghost use Rattle.std.specs.Prelude.{refl};
    ghost use Rattle.ft_format.specs.Broken.{object_of};
    ghost use Rattle.ft_view.specs.Sections.{section_of};
    ghost use Rattle.ft_view.specs.declared.section.Section.TheVariants.{Instrs};

    ghost object = { object_of };

    type Code = &'a [u8];

    ghost is_code = { λ v code. code.now ≡ section_of Instrs v };

    ghost nodes_are = { λ v. refl };

    fn node_words(&self, n: u32) -> (u64, u64) {
        self.node_record(n).words()
    }

    fn counts(&self) -> Counts {
        Counts {
            cells: self.header.cells,
            types: self.header.types,
            blocks: self.header.blocks,
            instrs: self.header.instrs,
            substs: self.header.substs,
        }
    }

    fn entry(&self) -> u32 {
        self.header.entry
    }

    // Inlined because callers take the instruction apart at once: otherwise each read would store and load all fields.
    #[inline(always)]
    fn instr(&self, i: u32) -> Instr {
        self.fetch(self.code(), i as usize * INSTR_BYTES)
    }

    fn code(&self) -> &'a [u8] {
        self.section(Section::Instrs)
    }

    #[inline(always)]
    fn fetch(&self, code: &'a [u8], at: usize) -> Instr {
        instr_in(self.record_in(code, at))
    }

    fn block(&self, b: u32) -> Block {
        read_block(self.block_record(b))
    }

    fn code_type(&self, t: u32) -> TypeHead {
        let _ = &self.header;
        let row = self.type_record(t);
        let (regs, queue) = self.rows_before(t);
        TypeHead {
            ints: row.ints,
            regs: row.regs - regs,
            queue: row.queue - queue,
            memory: row.memory,
        }
    }

    fn reg_row(&self, t: u32, j: u32) -> RegType {
        let _ = &self.header;
        let (start, _) = self.rows_before(t);
        read_reg(self.reg_record(start + j))
    }

    fn queue_row(&self, t: u32, j: u32) -> (u32, u32) {
        let _ = &self.header;
        let (_, start) = self.rows_before(t);
        let row = self.queue_record(start + j);
        (row.first, row.second)
    }

    fn subst_row(&self, n: u32) -> u32 {
        self.subst_record(n).node
    }

    fn cell(&self, k: u32) -> CellHead {
        read_cell(self.cell_record(k))
    }

    fn name(&self, k: u32) -> &[u8] {
        self.name_of(k)
    }
}
