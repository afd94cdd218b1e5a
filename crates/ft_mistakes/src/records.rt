//! The records of an object's sections.
use crate::fields::{
    BLOCK, CELL, Field, NAME, QUEUE, REG, SUBST, TYPE, field_at, instr_field, node_field,
};
use ft_format::Header;

/// How many bytes the header has.
pub(crate) const HEADER_SIZE: usize = 48;

/// A kind of record.
#[derive(Clone, Copy, Debug, PartialEq, Eq)]
pub(crate) enum Part {
    Cell,
    Node,
    Type,
    Reg,
    Queue,
    Block,
    Instr,
    Subst,
    Name,
}

/// A record: its kind, its number in its section, and the place of its first byte.
#[derive(Clone, Copy)]
pub(crate) struct Record {
    pub part: Part,
    pub number: usize,
    pub start: usize,
}

impl Part {
    /// What a record of this kind is called.
    pub fn words(self) -> &'static str {
        match self {
            Part::Cell => "cell",
            Part::Node => "node",
            Part::Type => "code type",
            Part::Reg => "register row",
            Part::Queue => "queue row",
            Part::Block => "block",
            Part::Instr => "instruction",
            Part::Subst => "substitution row",
            Part::Name => "name byte",
        }
    }

    /// The field at this offset of the record. The kind of a node or an instruction is its record's first byte.
    pub fn field(self, kind: u8, offset: usize) -> Option<Field> {
        match self {
            Part::Cell => field_at(CELL, offset),
            Part::Node => node_field(kind, offset),
            Part::Type => field_at(TYPE, offset),
            Part::Reg => field_at(REG, offset),
            Part::Queue => field_at(QUEUE, offset),
            Part::Block => field_at(BLOCK, offset),
            Part::Instr => instr_field(kind, offset),
            Part::Subst => field_at(SUBST, offset),
            Part::Name => field_at(NAME, offset),
        }
    }
}

/// The sections in their order: the kind of their records, the size of a record, and how many there are.
fn sections(header: Header) -> [(Part, usize, u32); 9] {
    [
        (Part::Cell, 16, header.cells),
        (Part::Node, 16, header.nodes),
        (Part::Type, 16, header.types),
        (Part::Reg, 12, header.regs),
        (Part::Queue, 8, header.queue),
        (Part::Block, 8, header.blocks),
        (Part::Instr, 16, header.instrs),
        (Part::Subst, 4, header.substs),
        (Part::Name, 1, header.names),
    ]
}

/// How many bytes an object with this header has.
pub(crate) fn total(header: Header) -> usize {
    let mut end = HEADER_SIZE;
    for (_, size, count) in sections(header) {
        end = end.saturating_add(size.saturating_mul(count as usize));
    }
    end
}

/// The record at a place past the header.
pub(crate) fn record_at(header: Header, at: usize) -> Option<Record> {
    let mut start = HEADER_SIZE;
    for (part, size, count) in sections(header) {
        let end = start.saturating_add(size.saturating_mul(count as usize));
        if start <= at && at < end {
            let number = at.saturating_sub(start).checked_div(size)?;
            let start = start.saturating_add(number.saturating_mul(size));
            return Some(Record {
                part,
                number,
                start,
            });
        }
        start = end;
    }
    None
}
