//! Finds the line of an assembly text that breaks a rule of the object format.
use crate::excerpt::Place;
use crate::listing::{counts_of, is_empty_block, line_of, line_with, words_before_rows};
use crate::objects::rule;
use crate::operands::{place_of_word, word};
use crate::page::Page;
use crate::records::{HEADER_SIZE, Part, Record, record_at};
use ft_format::Header;
use ft_isa::{NoMemory, read_number};

/// Where the header's field for the entry block begins.
const ENTRY_FIELD: usize = 44;

/// What the header counts: where the field ends, what the counted lines or parts are called, and how many are allowed.
const COUNTED: &[(usize, &str, &str)] = &[
    (12, "cells", "at most 1024 are allowed"),
    (16, "nodes", "at most 1048576 are allowed"),
    (20, "types", "1 to 4096 are allowed"),
    (24, "`reg` lines", "at most 262144 are allowed"),
    (28, "`pend` lines", "at most 32768 are allowed"),
    (32, "blocks", "1 to 65536 are allowed"),
    (36, "instructions", "1 to 65536 are allowed"),
    (40, "rows of substitutions", "at most 1048576 are allowed"),
    (44, "bytes of names", "at most 40960 are allowed"),
];

/// What breaks a rule: a record, its line, the number of a word in the line, and the counts of the text's records.
#[derive(Clone, Copy)]
struct Breach<'t> {
    record: Record,
    place: Place<'t>,
    number: usize,
    counts: Header,
}

/// The number of the word in a node's line that corresponds to an offset in its record.
fn word_of_node(offset: usize) -> usize {
    match offset {
        0 | 1 => 2,
        2 | 3 => 1,
        4..8 => 3,
        8..12 => 4,
        _ => 5,
    }
}

/// The number of the word in an instruction's line that corresponds to an offset in its record.
fn word_of_instr(line: &[u8], offset: usize) -> usize {
    match word(line, 0) {
        b"jmp_B" if offset >= 12 => 2,
        b"bz_B" if offset >= 12 => 3,
        b"idx" if offset >= 8 => 4,
        b"mov" if offset >= 4 => 4,
        b"jmp_B" | b"bz_B" if offset >= 4 => 0,
        _ => offset.min(3),
    }
}

/// The number of the word in a line that corresponds to an offset in a record. `index` is the record's number among
/// those of its kind that the line adds.
fn word_of(part: Part, line: &[u8], offset: usize, index: usize) -> usize {
    match part {
        Part::Cell if offset < 4 => 1,
        Part::Cell => 2,
        Part::Node => word_of_node(offset),
        Part::Type if offset < 8 => 0,
        Part::Type if offset < 12 => 2,
        Part::Type => 1,
        Part::Reg if offset < 2 => offset.saturating_add(1),
        Part::Reg if offset < 8 => 3,
        Part::Reg => 4,
        Part::Queue if offset < 4 => 1,
        Part::Queue => 2,
        Part::Block if offset < 4 => 0,
        Part::Block => 1,
        Part::Instr => word_of_instr(line, offset),
        Part::Subst => words_before_rows(line).unwrap_or(0).saturating_add(index),
        Part::Name => 1,
    }
}

/// What breaks a rule at a place in the tables.
fn breach_at(text: &[u8], counts: Header, at: usize) -> Option<Breach<'_>> {
    let record = record_at(counts, at)?;
    let (place, index) = line_of(text, record)?;
    let offset = at.saturating_sub(record.start);
    let number = word_of(record.part, place.line(), offset, index);
    Some(Breach {
        record,
        place,
        number,
        counts,
    })
}

impl<'t> Breach<'t> {
    /// The word that breaks the rule.
    fn word(&self) -> &'t [u8] {
        word(self.place.line(), self.number)
    }

    /// Whether the word should be a basic type.
    fn is_basic(&self) -> bool {
        match self.record.part {
            Part::Cell => self.number == 2,
            Part::Reg => self.number == 3,
            Part::Instr => word(self.place.line(), 0) == b"mov".as_slice(),
            _ => false,
        }
    }

    /// Whether the word should be the number of a memory.
    fn is_memory(&self) -> bool {
        match self.record.part {
            Part::Type | Part::Instr => true,
            Part::Node => {
                self.number == 3 && matches!(word(self.place.line(), 2), b"sel" | b"upd")
            }
            _ => false,
        }
    }

    /// What the word refers to, and how many of those there are.
    fn named(&self) -> (&'static str, u32) {
        if self.is_basic() || self.record.part == Part::Block {
            return ("type", self.counts.types);
        }
        if word(self.place.line(), 0) == b"idx".as_slice() {
            return ("cell", self.counts.cells);
        }
        ("node", self.counts.nodes)
    }
}

/// The number that a word ends with.
fn number_in(word: &[u8]) -> Option<u64> {
    let from = match word.iter().position(|byte| byte.is_ascii_digit()) {
        Some(from) => from,
        None => return None,
    };
    read_number(word.get(from..).unwrap_or(&[]))
}

/// Says how many parts of a kind the text has.
fn say_count(page: &mut Page, count: u32, what: &str) -> Result<(), NoMemory> {
    page.say("the text has ")?;
    page.count(count, what)?;
    page.say(", numbered from 0")
}

/// What is wrong with a number that is out of its range.
fn range_words(breach: &Breach<'_>) -> &'static str {
    match (breach.record.part, breach.number) {
        (Part::Node, 1) => "a scope is at most 128",
        (Part::Type, 0) => "a type has at most 8 `pend` lines",
        (Part::Type, _) => "a type has at most 128 integer variables",
        (Part::Instr, 0) => "a substitution has at most 128 rows",
        _ => "a length is 1 to 1024",
    }
}

/// What is wrong with a word of the wrong kind.
fn kind_words(breach: &Breach<'_>) -> &'static str {
    if breach.is_basic() {
        "a basic type has at most 8 `ref:`"
    } else if breach.is_memory() {
        "this node is an integer, but a memory is needed here"
    } else {
        "this node is a memory, but an integer is needed here"
    }
}

/// Says what is wrong with the number of a node, a type or a cell.
fn say_index(page: &mut Page, breach: &Breach<'_>) -> Result<(), NoMemory> {
    let line = breach.place.line();
    if breach.record.part == Part::Node && word(line, 2) == b"var".as_slice() {
        return page.say("a variable's number must be below the scope of its node");
    }
    let value = number_in(breach.word()).unwrap_or(0);
    let (what, count) = breach.named();
    if what == "cell" && breach.number == 4 {
        let first = number_in(word(line, 3)).unwrap_or(0);
        let last = first.saturating_add(value).saturating_sub(1);
        page.say(format_args!("cells {first} to {last} are named, but the text has "))?;
        return page.count(count, what);
    }
    if value >= u64::from(count) {
        page.say(format_args!("there is no {what} {value}: "))?;
        return say_count(page, count, what);
    }
    let own = breach.record.number as u64;
    if breach.record.part == Part::Node && value >= own {
        return page.say(format_args!(
            "this is node {own}, and a node may refer only to earlier nodes"
        ));
    }
    page.say(format_args!("the scope of {what} {value} is larger than the one here"))
}

/// What is wrong with the order of lines.
fn order_words(text: &[u8], breach: &Breach<'_>) -> &'static str {
    match breach.record.part {
        Part::Reg =>
            "the `reg` lines of a type list each register at most once, in ascending order",
        Part::Block if is_empty_block(text, breach.place.number()) =>
            "this block has no instruction",
        Part::Block => "the block before this one has no instruction",
        _ => rule(7),
    }
}

/// Whether a byte may begin a name.
fn may_begin(byte: Option<&u8>) -> bool {
    match byte {
        Some(byte) => byte.is_ascii_alphabetic() || *byte == b'_',
        None => false,
    }
}

/// Whether a byte may continue a name.
fn may_follow(byte: &u8) -> bool {
    byte.is_ascii_alphanumeric() || matches!(*byte, b'_' | b'[' | b']')
}

/// What is wrong with the name of a cell.
fn name_words(name: &[u8]) -> &'static str {
    if name.len() > 40 {
        "a name has at most 40 bytes"
    } else if !may_begin(name.first()) {
        "a name begins with a letter or `_`"
    } else if !name.iter().all(may_follow) {
        "a name has only letters, digits, `_`, `[` and `]`"
    } else {
        "an earlier cell has this name"
    }
}

/// Says why a word, or a whole line, breaks a rule.
fn say_reason(
    page: &mut Page,
    number: u64,
    text: &[u8],
    breach: &Breach<'_>,
) -> Result<(), NoMemory> {
    match number {
        3 => page.say(range_words(breach)),
        5 => page.say(kind_words(breach)),
        6 => say_index(page, breach),
        7 => page.say(order_words(text, breach)),
        _ => page.say(name_words(breach.word())),
    }
}

/// Explains what breaks a rule, and points to it.
fn explain_breach(
    page: &mut Page,
    name: &str,
    number: u64,
    text: &[u8],
    breach: Breach<'_>,
) -> Result<(), NoMemory> {
    let line = breach.place.line();
    let place = breach.place.after(place_of_word(line, breach.number));
    page.head_at(name, &place)?;
    if breach.number > 0 {
        page.say("invalid ")?;
        page.quote(breach.word())?;
        page.say(": ")?;
    }
    say_reason(page, number, text, &breach)?;
    page.say("\n")?;
    place.show(page, breach.word().len())
}

/// The count in the header's field at a place.
fn count_at(counts: Header, at: usize) -> u32 {
    match at {
        8..12 => counts.cells,
        12..16 => counts.nodes,
        16..20 => counts.types,
        20..24 => counts.regs,
        24..28 => counts.queue,
        28..32 => counts.blocks,
        32..36 => counts.instrs,
        36..40 => counts.substs,
        _ => counts.names,
    }
}

/// Explains that a text has too few or too many lines of a kind.
fn explain_count(page: &mut Page, name: &str, counts: Header, at: usize) -> Result<(), NoMemory> {
    let count = count_at(counts, at);
    page.head(name)?;
    for (past, what, allowed) in COUNTED {
        if at < *past {
            return page.say(format_args!("the text has {count} {what}: {allowed}\n"));
        }
    }
    Ok(())
}

/// Explains that the entry block does not exist.
fn explain_entry(page: &mut Page, name: &str, text: &[u8], counts: Header) -> Result<(), NoMemory> {
    let line = line_with(text, b"entry", text.len()).and_then(|number| Place::of_line(
        text, number,
    ));
    let Some(start) = line else {
        page.head(name)?;
        return page.say("the entry block does not exist\n");
    };
    let place = start.after(place_of_word(start.line(), 1));
    let entry = word(start.line(), 1);
    page.head_at(name, &place)?;
    page.say("there is no block ")?;
    page.show(entry)?;
    page.say(": ")?;
    say_count(page, counts.blocks, "block")?;
    page.say("\n")?;
    place.show(page, entry.len())
}

/// Explains why the tables of an assembly text are refused if the text cannot be read again or the line is not known.
fn explain_unplaced(page: &mut Page, name: &str, number: u64, at: u64) -> Result<(), NoMemory> {
    page.head(name)?;
    page.say("the text is not a valid object: ")?;
    page.say(rule(number))?;
    page.say(format_args!("\n  at byte {at} of its tables in version 2 of the object format\n"))
}

/// Explains why the tables of an assembly text are refused: their bytes break the rule with this number at this place.
pub fn explain_tables(
    page: &mut Page,
    name: &str,
    number: u64,
    at: u64,
    text: Option<&[u8]>,
) -> Result<(), NoMemory> {
    let Some(text) = text else {
        return explain_unplaced(page, name, number, at);
    };
    let place = at as usize;
    let counts = counts_of(text);
    if place < ENTRY_FIELD {
        return explain_count(page, name, counts, place);
    }
    if place < HEADER_SIZE {
        return explain_entry(page, name, text, counts);
    }
    match breach_at(text, counts, place) {
        Some(breach) => explain_breach(page, name, number, text, breach),
        None => explain_unplaced(page, name, number, at),
    }
}
