//! The lines before the first block.
ghost use Rattle.std.specs.Prelude.{◌≡◌, ◌≤◌, ◌<◌, ◌+◌, ◌^◌, length, option_map, true, IfOk, IfSome};
ghost use Rattle.ft_text.specs.Lines.{lines_of};
ghost use Rattle.ft_flow.specs.LineWords.{line_words};
ghost use Rattle.ft_flow.specs.Heads.{declaration_in, declaration_rest, is_declaration, is_version, many_fit, numbers_in};
ghost use Rattle.ft_flow.specs.Heads.{read_head, read_vars, said, vars_in};
ghost use Rattle.ft_flow.specs.RowsAt.{declaration_at, head_at, map_ok};

use crate::fields::{is_same, number_of, take_past, take_word};
use crate::flow_error::FlowError;
use crate::limits::PAIRS;
use crate::rows::next_row;
use crate::words::next_word;
use std::alloc::{AllocError, Global};

/// Whether a line is that of the version.
fn is_version(line: &[u8]) -> bool
    ensures { result ≡ is_version (line_words line.now) }
{
    let Some(rest) = take_past(b"flow", line) else {
        return false;
    };
    let Some(rest) = take_past(b"1", rest) else {
        return false;
    };
    next_word(rest).is_none()
}

/// The number of variables that a line states.
fn vars_of(line: &[u8]) -> Option<u8>
    ensures { result ≡ vars_in (line_words line.now) }
{
    let Some(rest) = take_past(b"vars", line) else {
        return None;
    };
    let Some((word, rest)) = next_word(rest) else {
        return None;
    };
    let Some(number) = number_of(word) else {
        return None;
    };
    if number >= PAIRS as u64 {
        return None;
    }
    match next_word(rest) {
        Some(_) => None,
        None => Some(number as u8),
    }
}

/// The number of variables, the number of the line after it, and the text from there on.
#[derive(Clone, Copy)]
pub(crate) struct Head<'t> {
    pub vars: u8,
    pub next: u32,
    pub rest: &'t [u8],
}

/// Reads the number of variables, on the first line that says something.
fn read_vars(number: u32, text: &[u8], end: u32) -> Result<Head<'_>, FlowError>
    requires { number + length text.now < 2 ^ 32 }
    ensures read { read_vars end (said number (lines_of text.now)) ≡ map_ok head_at result }
    ensures few { IfOk result (λ h. h.vars < PAIRS) }
    ensures room { IfOk result (λ h. h.next + length h.rest.now ≤ number + length text.now) }
{
    let Some(row) = next_row(number, text) else {
        return Err(FlowError::Missing { line: end });
    };
    let Some(vars) = vars_of(row.line) else {
        return Err(FlowError::Form { line: row.number });
    };
    Ok(Head {
        vars,
        next: row.next,
        rest: row.rest,
    })
}

/// Reads the version and the number of variables.
pub(crate) fn read_head(text: &[u8], end: u32) -> Result<Head<'_>, FlowError>
    requires { 1 + length text.now < 2 ^ 32 }
    ensures read { read_head end (said 1 (lines_of text.now)) ≡ map_ok head_at result }
    ensures few { IfOk result (λ h. h.vars < PAIRS) }
    ensures room { IfOk result (λ h. h.next + length h.rest.now ≤ 1 + length text.now) }
{
    let Some(row) = next_row(1, text) else {
        return Err(FlowError::Missing { line: end });
    };
    if !is_version(row.line) {
        return Err(FlowError::Form { line: row.number });
    }
    read_vars(row.next, row.rest, end)
}

/// The numbers that the words of a text spell.
fn numbers_of(alloc: Global, text: &[u8]) -> Result<Option<Vec<u64>>, AllocError>
    ensures { IfOk result (λ o. numbers_in (line_words text.now) ≡ option_map (λ v. v.items) o) }
{
    let mut out = Vec::new(alloc);
    let mut left = text;
    while let Some((word, rest)) = next_word(left) {
        let Some(number) = number_of(word) else {
            return Ok(None);
        };
        out.push(number)?;
        left = rest;
    }
    Ok(Some(out))
}

/// What a line declares: a cell with its initial word, or an array with one word for each cell.
#[derive(Drop)]
pub(crate) struct Declaration<'t> {
    pub array: bool,
    pub name: &'t [u8],
    pub words: Vec<u64>,
}

/// Whether a cell or an array may have this many words.
fn many_fit(array: bool, n: usize) -> bool
    ensures { result ≡ many_fit array n }
{
    if array { n > 0 } else { n == 1 }
}

/// Reads a declaration after its first word.
fn declaration_rest<'t>(
    alloc: Global,
    array: bool,
    text: &'t [u8],
) -> Result<Option<Declaration<'t>>, AllocError>
    ensures said { IfOk result (λ o. declaration_rest array (line_words text.now) ≡ option_map declaration_at o) }
    ensures many { IfOk result (λ o. IfSome o (λ t. many_fit t.array (length t.words.items) ≡ true)) }
{
    let Some((name, rest)) = take_word(text) else {
        return Ok(None);
    };
    let Some(rest) = take_past(b"=", rest) else {
        return Ok(None);
    };
    let Some(words) = numbers_of(alloc, rest)? else {
        return Ok(None);
    };
    if many_fit(array, words.len()) {
        Ok(Some(Declaration { array, name, words }))
    } else {
        Ok(None)
    }
}

/// Whether a line's first word is `cell` or `array`.
pub(crate) fn is_declaration(line: &[u8]) -> bool
    ensures { result ≡ is_declaration (line_words line.now) }
{
    let Some((word, _)) = next_word(line) else {
        return false;
    };
    is_same(word, b"cell") || is_same(word, b"array")
}

/// Reads a declaration.
pub(crate) fn declaration_of<'t>(
    alloc: Global,
    line: &'t [u8],
) -> Result<Option<Declaration<'t>>, AllocError>
    ensures said { IfOk result (λ o. declaration_in (line_words line.now) ≡ option_map declaration_at o) }
    ensures many { IfOk result (λ o. IfSome o (λ t. many_fit t.array (length t.words.items) ≡ true)) }
{
    let Some((word, rest)) = next_word(line) else {
        return Ok(None);
    };
    declaration_rest(alloc, is_same(word, b"array"), rest)
}
