//! The lines of instructions: an instruction's words, then the rows of the substitution that it carries.
ghost use Rattle.std.specs.Prelude.{◌≡◌, ◌≤◌, ◌++◌, length, slice_range, option_map, OnOk, IfOk};
ghost use Rattle.std.specs.List.{flat_map};
ghost use Rattle.ft_types.specs.Spellable.{subst_of};
ghost use Rattle.ft_text.specs.LineWords.{words_of};
ghost use Rattle.ft_asm.specs.Forms.{rows_in};
ghost use Rattle.ft_asm.specs.InstrForms.{code_in};
ghost use Rattle.ft_asm.specs.Lines.{code_words};
ghost use Rattle.ft_asm.specs.Listings.{code_of};
ghost use Rattle.ft_asm.specs.Reads.{spaced};
ghost use Rattle.ft_asm.specs.Pieces.{row_text, code_text, HasRows};

use crate::fields::{end, index_of};
use crate::instr_forms::{instr_of, put_instr};
use crate::line::{Code, Line};
use crate::writing::{put, put_number};
use ft_isa::{Instr, NoMemory, Subst};
use ft_text::next_word;
use ft_types::{Program, Table};
use std::alloc::Global;

/// The substitution that an instruction carries.
fn carried(instr: Instr) -> Option<Subst>
    ensures { result ≡ subst_of instr }
{
    match instr {
        Instr::JmpB { subst, .. } => Some(subst),
        Instr::BzB { subst, .. } => Some(subst),
        _ => None,
    }
}

/// Reads the rows of a substitution; `None` if some word is not a row.
fn rows_of(alloc: Global, text: &[u8]) -> Result<Option<Vec<u32>>, NoMemory>
    ensures { IfOk result (λ o. rows_in (words_of text.now) ≡ option_map (λ rows. rows.items) o) }
{
    let mut rows = Vec::new(alloc);
    let mut rest = text;
    while let Some((word, after)) = next_word(rest) {
        let Some(row) = index_of(word) else {
            return Ok(None);
        };
        rows.push(row).map_err(|_| NoMemory)?;
        rest = after;
    }
    Ok(Some(rows))
}

/// Reads the line of an instruction, given its first word.
pub(crate) fn code_of(alloc: Global, word: &[u8], text: &[u8]) -> Result<Option<Line>, NoMemory>
    ensures { IfOk result (λ line. line ≡ code_in word.now (words_of text.now)) }
{
    let Some((instr, text)) = instr_of(word, text) else {
        return Ok(None);
    };
    let None = carried(instr) else {
        let Some(rows) = rows_of(alloc, text)? else {
            return Ok(None);
        };
        let rows = Table::from_vec(rows);
        return Ok(Some(Line::Code(Code { instr, rows })));
    };
    let rows = Table::new(alloc);
    Ok(end(text, Line::Code(Code { instr, rows })))
}

/// Appends a row of a substitution, with a space before it.
fn put_row(out: &mut Vec<u8>, row: u32) -> Result<(), NoMemory>
    ensures { OnOk result (out.new.items ≡ out.old.items ++ row_text row) }
{
    put(out, b" ")?;
    put_number(out, u64::from(row))
}

/// Appends the rows of a substitution, each with a space before it.
fn put_rows<P: Program>(out: &mut Vec<u8>, program: &P, subst: Subst) -> Result<(), NoMemory>
    requires { subst.past ≤ length (P.object program.now).substs }
    ensures { OnOk result (out.new.items ≡ out.old.items ++ flat_map row_text (slice_range (P.object program.now).substs subst.first subst.past)) }
{
    for n in subst.first..subst.past {
        put_row(out, program.subst_row(n))?;
    }
    Ok(())
}

/// Appends the words of an instruction.
fn put_words<P: Program>(out: &mut Vec<u8>, program: &P, instr: Instr) -> Result<(), NoMemory>
    requires { HasRows (P.object program.now).substs (subst_of instr) }
    ensures { OnOk result (out.new.items ≡ out.old.items ++ spaced (code_words (code_of (P.object program.now).substs instr))) }
{
    put_instr(out, instr)?;
    if let Some(subst) = carried(instr) {
        put_rows(out, program, subst)?;
    }
    Ok(())
}

/// Appends the line of an instruction.
pub(crate) fn put_code<P: Program>(
    out: &mut Vec<u8>,
    program: &P,
    instr: Instr,
) -> Result<(), NoMemory>
    requires { HasRows (P.object program.now).substs (subst_of instr) }
    ensures { OnOk result (out.new.items ≡ out.old.items ++ code_text (code_of (P.object program.now).substs instr)) }
{
    put_words(out, program, instr)?;
    put(out, b"\n")
}
