//! The records that the lines of an assembly text add to its tables.
use crate::excerpt::Place;
use crate::operands::{count_words, word};
use crate::records::{Part, Record};
use ft_format::Header;
use ft_text::read_line;

/// The counts of a text with no lines.
const NOTHING: Header = Header {
    magic: 0,
    cells: 0,
    nodes: 0,
    types: 0,
    regs: 0,
    queue: 0,
    blocks: 0,
    instrs: 0,
    substs: 0,
    names: 0,
    entry: 0,
};

/// The kind of record that a line adds; `None` if it adds none.
fn part_of(line: &[u8]) -> Option<Part> {
    let first = word(line, 0);
    if first.is_empty() || first.starts_with(b"#") {
        return None;
    }
    match first {
        b"cell" => Some(Part::Cell),
        b"node" => Some(Part::Node),
        b"type" => Some(Part::Type),
        b"reg" => Some(Part::Reg),
        b"pend" => Some(Part::Queue),
        b"block" => Some(Part::Block),
        b"entry" => None,
        _ => Some(Part::Instr),
    }
}

/// How many words precede the rows of a substitution in a line.
pub(crate) fn words_before_rows(line: &[u8]) -> Option<usize> {
    match word(line, 0) {
        b"jmp_B" => Some(3),
        b"bz_B" => Some(4),
        _ => None,
    }
}

/// How many substitution rows a line has.
fn count_rows(line: &[u8]) -> usize {
    match words_before_rows(line) {
        Some(before) => count_words(line).saturating_sub(before),
        None => 0,
    }
}

/// How many records of a kind a line adds.
fn count_in(line: &[u8], part: Part) -> usize {
    let added = part_of(line);
    match part {
        Part::Subst if added == Some(Part::Instr) => count_rows(line),
        Part::Name if added == Some(Part::Cell) => word(line, 1).len(),
        _ => usize::from(added == Some(part)),
    }
}

/// A count plus the number of records of a kind that a line adds.
fn more(count: u32, line: &[u8], part: Part) -> u32 {
    let added = u32::try_from(count_in(line, part)).unwrap_or(u32::MAX);
    count.saturating_add(added)
}

/// The counts after one more line.
fn with_line(header: Header, line: &[u8]) -> Header {
    Header {
        cells: more(header.cells, line, Part::Cell),
        nodes: more(header.nodes, line, Part::Node),
        types: more(header.types, line, Part::Type),
        regs: more(header.regs, line, Part::Reg),
        queue: more(header.queue, line, Part::Queue),
        blocks: more(header.blocks, line, Part::Block),
        instrs: more(header.instrs, line, Part::Instr),
        substs: more(header.substs, line, Part::Subst),
        names: more(header.names, line, Part::Name),
        ..header
    }
}

/// How many records of each kind the lines of a text add.
pub(crate) fn counts_of(text: &[u8]) -> Header {
    let mut header = NOTHING;
    let mut rest = text;
    for _ in 0..text.len() {
        let Some((line, after)) = read_line(rest) else {
            break;
        };
        header = with_line(header, line);
        rest = after;
    }
    header
}

/// The line that adds a record, and the number of the record among those of its kind that the line adds.
pub(crate) fn line_of(text: &[u8], record: Record) -> Option<(Place<'_>, usize)> {
    let mut rest = text;
    let mut left = record.number;
    let mut number: usize = 1;
    for _ in 0..text.len() {
        let (line, after) = read_line(rest)?;
        let added = count_in(line, record.part);
        if left < added {
            return Some((Place::of_line(text, number)?, left));
        }
        left = left.saturating_sub(added);
        number = number.saturating_add(1);
        rest = after;
    }
    None
}

/// The number of the first line that begins with this word, among the first `most` lines of a text.
pub(crate) fn line_with(text: &[u8], first: &[u8], most: usize) -> Option<usize> {
    let mut rest = text;
    let mut number: usize = 1;
    for _ in 0..most {
        let (line, after) = read_line(rest)?;
        if word(line, 0) == first {
            return Some(number);
        }
        number = number.saturating_add(1);
        rest = after;
    }
    None
}

/// The number of the cell with this name; `None` if the text has no such cell.
pub(crate) fn cell_of(text: &[u8], name: &[u8]) -> Option<u64> {
    let mut rest = text;
    let mut number: u64 = 0;
    for _ in 0..text.len() {
        let (line, after) = read_line(rest)?;
        if part_of(line) == Some(Part::Cell) {
            if word(line, 1) == name {
                return Some(number);
            }
            number = number.saturating_add(1);
        }
        rest = after;
    }
    None
}

/// Whether the block on the line with this number is empty: no instruction follows it.
pub(crate) fn is_empty_block(text: &[u8], number: usize) -> bool {
    let mut rest = text;
    let mut passed: usize = 0;
    for _ in 0..text.len() {
        let Some((line, after)) = read_line(rest) else {
            return true;
        };
        let is_said = part_of(line).is_some() || word(line, 0) == b"entry".as_slice();
        if passed >= number && is_said {
            return part_of(line) != Some(Part::Instr);
        }
        passed = passed.saturating_add(1);
        rest = after;
    }
    true
}
