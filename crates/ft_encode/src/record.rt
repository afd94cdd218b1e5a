//! Writes records one after the other.
ghost use Rattle.std.specs.Prelude.{◌≡◌, ◌∷◌, ◌++◌, [], OnOk};
ghost use Rattle.std.specs.List.{flat_map};
ghost use Rattle.ft_types.specs.NodeRows.{high_half, low_half, shape_row};
ghost use Rattle.ft_format.specs.Layout.{written};
ghost use Rattle.ft_format.specs.Fields.{code_numbers, node_numbers};
ghost use Rattle.ft_format.specs.Codes.{colour_code, base_code, base_type, basic_number};
ghost use Rattle.ft_format.specs.InstrRecords.{instr_row};
ghost use Rattle.ft_format.specs.Puts.{Puts};
ghost use Rattle.ft_encode.specs.Written.{subst_bytes};

use ft_format::{CodeRow, NodeRow, PairRow, RegRow, SubstRow, put_pair};
use ft_isa::{Base, Basic, Colour, Coloured, Instr, NoMemory, Reg, Subst};
use ft_static::{Node, Shape};
use ft_types::{Block, RegType, high_half, low_half, shape_numbers};

/// A value that is written as one record.
pub(crate) trait Record {
    ghost use Rattle.std.specs.Prelude.{ℕ, List, OnOk};
    ghost use Rattle.ft_format.specs.Puts.{Puts};

    ghost bytes: { Self → List ℕ };

    /// Appends the record's bytes.
    fn write(&self, out: &mut Vec<u8>) -> Result<(), NoMemory>
        ensures { OnOk result (Puts out.old.items out.new.items (bytes self.now)) };
}

/// Appends records, one after the other.
pub(crate) fn write_all<T: Record>(records: &[T], out: &mut Vec<u8>) -> Result<(), NoMemory>
    ensures { OnOk result (Puts out.old.items out.new.items (flat_map T.bytes records.now)) }
{
    for item in records {
        item.write(out)?;
    }
    Ok(())
}

/// The code of a colour.
fn colour_code(colour: Colour) -> u8
    ensures { result ≡ colour_code colour }
{
    match colour {
        Colour::Green => 0,
        Colour::Blue => 1,
    }
}

/// The code of a base.
pub(crate) fn base_code(base: Base) -> u8
    ensures { result ≡ base_code base }
{
    match base {
        Base::Int => 0,
        Base::Code(_) => 1,
    }
}

/// The code type of a base, 0 for `int`.
pub(crate) fn base_type(base: Base) -> u16
    ensures { result ≡ base_type base }
{
    match base {
        Base::Int => 0,
        Base::Code(code_type) => code_type,
    }
}

/// The four bytes of a basic type as one number.
fn basic_number(basic: Basic) -> u32
    ensures { result ≡ basic_number basic }
{
    let base = (u32::from(base_code(basic.base)) << 16) | u32::from(base_type(basic.base));
    (u32::from(basic.refs) << 24) | base
}

/// The numbers of a node with this scope and shape.
fn shape_row(scope: u8, shape: Shape) -> NodeRow
    ensures { node_numbers result ≡ shape_row scope shape }
{
    let numbers = shape_numbers(shape);
    NodeRow {
        kind: numbers.kind,
        op: numbers.op,
        scope,
        pad: 0,
        a: numbers.a,
        b: numbers.b,
        c: numbers.c,
    }
}

impl Record for Node {
    ghost use Rattle.ft_encode.specs.Written.{node_bytes};

    ghost bytes = { node_bytes };

    fn write(&self, out: &mut Vec<u8>) -> Result<(), NoMemory> {
        shape_row(self.scope, self.shape).write(out)
    }
}

impl Record for RegType {
    ghost use Rattle.ft_encode.specs.Written.{reg_bytes};

    ghost bytes = { reg_bytes };

    fn write(&self, out: &mut Vec<u8>) -> Result<(), NoMemory> {
        let row = RegRow {
            reg: self.reg.number(),
            colour: colour_code(self.colour),
            pad: 0,
            refs: self.basic.refs,
            base: base_code(self.basic.base),
            code_type: base_type(self.basic.base),
            expr: self.expr,
        };
        row.write(out)
    }
}

impl Record for (u32, u32) {
    ghost use Rattle.ft_encode.specs.Written.{pair_bytes};

    ghost bytes = { pair_bytes };

    fn write(&self, out: &mut Vec<u8>) -> Result<(), NoMemory> {
        let row = PairRow {
            first: self.0,
            second: self.1,
        };
        row.write(out)
    }
}

impl Record for Block {
    ghost use Rattle.ft_encode.specs.Written.{block_bytes};

    ghost bytes = { block_bytes };

    fn write(&self, out: &mut Vec<u8>) -> Result<(), NoMemory> {
        let row = PairRow {
            first: self.start,
            second: self.code_type,
        };
        row.write(out)
    }
}

/// The numbers of an instruction of this kind, with registers or a colour in a, b and c.
fn code_row(kind: u8, a: u8, b: u8, c: u8, x: u32, word: u64) -> CodeRow
    ensures { code_numbers result ≡ kind ∷ a ∷ b ∷ c ∷ x ∷ high_half word ∷ low_half word ∷ [] }
{
    CodeRow {
        kind,
        a,
        b,
        c,
        x,
        high: high_half(word),
        low: low_half(word),
    }
}

/// The numbers of a blue jump or branch.
fn blue_row(kind: u8, a: u8, b: u8, subst: Subst) -> CodeRow
    ensures { code_numbers result ≡ kind ∷ a ∷ b ∷ 1 ∷ subst.first ∷ subst.past ∷ subst.memory ∷ [] }
{
    CodeRow {
        kind,
        a,
        b,
        c: 1,
        x: subst.first,
        high: subst.past,
        low: subst.memory,
    }
}

/// The numbers of an instruction with a word.
fn word_row(kind: u8, rd: Reg, b: u8, value: Coloured, x: u32) -> CodeRow
    ensures { code_numbers result ≡ kind ∷ rd.number ∷ b ∷ colour_code value.colour ∷ x ∷ high_half value.word ∷ low_half value.word ∷ [] }
{
    code_row(
        kind,
        rd.number(),
        b,
        colour_code(value.colour),
        x,
        value.word,
    )
}

/// The numbers of an instruction's record.
fn instr_row(instr: Instr) -> CodeRow
    ensures { code_numbers result ≡ instr_row instr }
{
    match instr {
        Instr::OpReg { op, rd, rs, rt } => {
            code_row(
                0,
                rd.number(),
                rs.number(),
                rt.number(),
                u32::from(op.code()),
                0,
            )
        }
        Instr::OpWord { op, rd, rs, value } => {
            word_row(1, rd, rs.number(), value, u32::from(op.code()))
        }
        Instr::Mov { rd, value, basic } => word_row(2, rd, 0, value, basic_number(basic)),
        Instr::Ld { colour, rd, rs } => {
            code_row(3, rd.number(), rs.number(), colour_code(colour), 0, 0)
        }
        Instr::St { colour, rd, rs } => {
            code_row(4, rd.number(), rs.number(), colour_code(colour), 0, 0)
        }
        Instr::JmpG { rd } => code_row(5, rd.number(), 0, 0, 0, 0),
        Instr::JmpB { rd, subst } => blue_row(5, rd.number(), 0, subst),
        Instr::BzG { rz, rd } => code_row(6, rz.number(), rd.number(), 0, 0, 0),
        Instr::BzB { rz, rd, subst } => blue_row(6, rz.number(), rd.number(), subst),
        Instr::Halt => code_row(7, 0, 0, 0, 0, 0),
        Instr::Idx {
            rd,
            rs,
            first,
            length,
        } => code_row(8, rd.number(), rs.number(), 0, first, u64::from(length)),
    }
}

impl Record for Instr {
    ghost use Rattle.ft_encode.specs.Written.{instr_bytes};

    ghost bytes = { instr_bytes };

    fn write(&self, out: &mut Vec<u8>) -> Result<(), NoMemory> {
        instr_row(*self).write(out)
    }
}

/// Appends substitution rows, two at a time, since an object may have a million of them.
#[tactic(auto, unfolding(ft_format::specs::Layout::written))]
pub(crate) fn write_rows(rows: &[u32], out: &mut Vec<u8>) -> Result<(), NoMemory>
    ensures { OnOk result (Puts out.old.items out.new.items (flat_map subst_bytes rows.now)) }
{
    let mut left = rows;
    while let [a, b, rest @ ..] = left {
        put_pair(out, *a, *b)?;
        left = rest;
    }
    write_all(left, out)
}

impl Record for u32 {
    ghost use Rattle.ft_encode.specs.Written.{subst_bytes};

    ghost bytes = { subst_bytes };

    fn write(&self, out: &mut Vec<u8>) -> Result<(), NoMemory> {
        SubstRow { node: *self }.write(out)
    }
}
