//! Reads lines by their first words.
ghost use Rattle.std.specs.Prelude.{◌≡◌, IfOk};
ghost use Rattle.ft_text.specs.LineWords.{words_of};
ghost use Rattle.ft_asm.specs.LineForms.{all_in, cell_row, type_row, reg_row, pend_row, block_row, entry_row, line_with};
ghost use Rattle.ft_asm.specs.Said.{Says};

use crate::code_lines::code_of;
use crate::fields::{
    end, is_same, take_basic, take_byte, take_colour, take_index, take_reg, take_word,
};
use crate::line::Line;
use crate::node_forms::node_of;
use ft_isa::NoMemory;
use ft_text::next_word;
use ft_types::{Cell, RegType, Table};
use std::alloc::Global;

/// Reads a cell.
fn cell_of(alloc: Global, text: &[u8]) -> Result<Option<Line>, NoMemory>
    ensures { IfOk result (λ line. line ≡ all_in cell_row (words_of text.now)) }
{
    let Some((word, text)) = next_word(text) else {
        return Ok(None);
    };
    let Some((basic, text)) = take_basic(text) else {
        return Ok(None);
    };
    let Some((init, text)) = take_word(text) else {
        return Ok(None);
    };
    let mut name = Vec::new(alloc);
    name.extend_from_slice(word)?;
    let name = Table::from_vec(name);
    Ok(end(text, Line::Cell(Cell { name, basic, init })))
}

/// Reads a code type.
fn type_of(text: &[u8]) -> Option<Line>
    ensures { result ≡ all_in type_row (words_of text.now) }
{
    let (ints, text) = take_byte(text)?;
    let (memory, text) = take_index(text)?;
    end(text, Line::Type { ints, memory })
}

/// Reads a register row.
fn reg_row_of(text: &[u8]) -> Option<Line>
    ensures { result ≡ all_in reg_row (words_of text.now) }
{
    let (reg, text) = take_reg(text)?;
    let (colour, text) = take_colour(text)?;
    let (basic, text) = take_basic(text)?;
    let (expr, text) = take_index(text)?;
    end(
        text,
        Line::Reg(RegType {
            reg,
            colour,
            basic,
            expr,
        }),
    )
}

/// Reads a queue row.
fn pend_of(text: &[u8]) -> Option<Line>
    ensures { result ≡ all_in pend_row (words_of text.now) }
{
    let (address, text) = take_index(text)?;
    let (value, text) = take_index(text)?;
    end(text, Line::Pend { address, value })
}

/// Reads a block.
fn block_of(text: &[u8]) -> Option<Line>
    ensures { result ≡ all_in block_row (words_of text.now) }
{
    let (code_type, text) = take_index(text)?;
    end(text, Line::Block(code_type))
}

/// Reads the entry block.
fn entry_of(text: &[u8]) -> Option<Line>
    ensures { result ≡ all_in entry_row (words_of text.now) }
{
    let (block, text) = take_index(text)?;
    end(text, Line::Entry(block))
}

/// Reads a line, given its first word.
fn line_of(alloc: Global, word: &[u8], text: &[u8]) -> Result<Option<Line>, NoMemory>
    ensures { IfOk result (λ line. line ≡ line_with word.now (words_of text.now)) }
{
    if is_same(word, b"node") {
        return Ok(node_of(text));
    }
    if is_same(word, b"cell") {
        return cell_of(alloc, text);
    }
    if is_same(word, b"type") {
        return Ok(type_of(text));
    }
    if is_same(word, b"reg") {
        return Ok(reg_row_of(text));
    }
    if is_same(word, b"pend") {
        return Ok(pend_of(text));
    }
    if is_same(word, b"block") {
        return Ok(block_of(text));
    }
    if is_same(word, b"entry") {
        return Ok(entry_of(text));
    }
    code_of(alloc, word, text)
}

/// What a line says.
pub(crate) enum Said {
    /// It has no word, or the first begins a comment.
    Nothing,
    /// It says this.
    Line(Line),
    /// It has none of the forms.
    Bad,
}

/// Reads what a line says.
pub(crate) fn read_form(alloc: Global, line: &[u8]) -> Result<Said, NoMemory>
    ensures { IfOk result (Says (words_of line.now)) }
{
    let Some((word, text)) = next_word(line) else {
        return Ok(Said::Nothing);
    };
    if let [b'#', ..] = word {
        return Ok(Said::Nothing);
    }
    match line_of(alloc, word, text)? {
        Some(line) => Ok(Said::Line(line)),
        None => Ok(Said::Bad),
    }
}
