//! The first words of the lines of assembly texts.
use crate::elsewhere::of_machine;
use crate::forms::first_word;
use crate::kinds::wrong_node;
use crate::lines::begins_comment;
use crate::near::{is_near, say_near};
use crate::operands::{Operand, word, wrong_operand, wrong_operation};
use crate::page::Page;
use crate::samples::{INSTR, sample_lines};
use ft_asm::{AsmError, assemble_bytes};
use ft_isa::{NoMemory, Op};
use std::alloc::Global;

/// The words after `node`.
const NODE: &str = "SCOPE, a kind and its operands, as in `node 0 word 5`";

/// The words after an operation.
const OPERATION: &str = "R R R, or R R C W";

/// The first word of each kind of line except instructions, with the words that follow it.
const TABLES: &[(&str, &str)] = &[
    ("cell", "NAME BASIC INIT"),
    ("node", NODE),
    ("type", "INTS MEMORY"),
    ("reg", "R C BASIC NODE"),
    ("pend", "A V"),
    ("block", "TYPE"),
    ("entry", "B"),
];

/// The words after the name of an instruction other than an operation: it has the first of these forms that fits its
/// sample.
const INSTRS: &[&str] = &[
    "nothing",
    "R",
    "R R",
    "R C W BASIC",
    "R R FIRST LENGTH",
    "R MEMORY ROW ..",
    "R R MEMORY ROW ..",
];

/// What follows the name of an instruction with another form.
const OTHER: &str = "other words";

/// The words after the first word of a line that is not an instruction.
pub(crate) fn form_in_tables(word: &[u8]) -> Option<&'static str> {
    for (first, rest) in TABLES {
        if first.as_bytes() == word {
            return Some(*rest);
        }
    }
    None
}

/// The form of a sample.
fn form_of_sample(sample: &[u8]) -> &'static str {
    for form in INSTRS {
        if wrong_operand(sample, *form).is_none() {
            return *form;
        }
    }
    OTHER
}

/// The words after the first word of a sample that begins with this word.
fn form_in_samples(samples: &str, first: &[u8]) -> Option<&'static str> {
    for sample in samples.lines() {
        let sample = sample.as_bytes();
        if word(sample, 0) == first {
            return Some(form_of_sample(sample));
        }
    }
    None
}

/// The words that follow the first word of a line; `None` if no line begins with it.
pub(crate) fn form_of(alloc: Global, word: &[u8]) -> Result<Option<&'static str>, NoMemory> {
    if Op::of_word(word).is_some() {
        return Ok(Some(OPERATION));
    }
    if let Some(form) = form_in_tables(word) {
        return Ok(Some(form));
    }
    let samples = sample_lines(alloc, INSTR)?;
    Ok(form_in_samples(samples.as_str(), word))
}

/// The operand of a line that does not fit the forms.
pub(crate) fn operand_of<'t>(
    alloc: Global,
    line: &'t [u8],
    forms: &'static str,
) -> Result<Option<Operand<'t>>, NoMemory> {
    if forms == OPERATION {
        Ok(wrong_operation(line))
    } else if forms == NODE {
        wrong_node(alloc, line)
    } else if forms == OTHER {
        Ok(None)
    } else {
        Ok(wrong_operand(line, forms))
    }
}

/// Whether a line that is neither empty nor a comment may be a line of an assembly text.
pub(crate) fn is_line(alloc: Global, line: &[u8]) -> Result<bool, NoMemory> {
    match assemble_bytes(alloc, line) {
        Err(AsmError::Text { .. }) => Ok(false),
        Err(AsmError::NoMemory) => Err(NoMemory),
        _ => Ok(true),
    }
}

/// Whether a word is a line number, perhaps with a colon.
fn is_line_number(word: &[u8]) -> bool {
    let digits = word.strip_suffix(b":").unwrap_or(word);
    !digits.is_empty() && digits.iter().all(|byte| byte.is_ascii_digit())
}

/// Advice on a first word that other assembly languages use, or that was copied along with the code; empty if there is
/// none.
fn habit_of(word: &[u8]) -> &'static str {
    if is_line_number(word) {
        "lines are not numbered: remove the numbers"
    } else if word == b"$".as_slice() {
        "this is the prompt of a shell: remove it"
    } else if word.starts_with(b">") {
        "this marks a prompt or a quotation: remove it"
    } else if begins_comment(word) || word.starts_with(b"--") {
        "a comment begins with `#`, on a line of its own"
    } else if word.ends_with(b":") {
        "there are no labels: `block TYPE` begins a block, and blocks are numbered from 0"
    } else if word.ends_with(b";") {
        "lines do not end with `;`"
    } else if word.starts_with(b".") {
        "there are no directives"
    } else {
        ""
    }
}

/// Whether a line that begins with this word precedes the blocks.
fn is_of_tables(first: &str) -> bool {
    matches!(
        first.as_bytes(),
        b"cell" | b"node" | b"type" | b"reg" | b"pend"
    )
}

/// Says which first word of a line other than an instruction was probably meant. Among instructions, only `block` and
/// `entry` are possible.
fn say_near_table(page: &mut Page, word: &str, is_code: bool) -> Result<bool, NoMemory> {
    for (first, _) in TABLES {
        let is_meant = !is_code || !is_of_tables(*first);
        if is_meant && is_near(page.alloc(), word, *first)? {
            say_near(page, first.as_bytes())?;
            return Ok(true);
        }
    }
    Ok(false)
}

/// Says which operation was probably meant.
pub(crate) fn say_near_operation(page: &mut Page, word: &str) -> Result<bool, NoMemory> {
    for code in 0..256u32 {
        let op = Op::of_code(code);
        // A code beyond the last one is read as the last.
        if u32::from(op.code()) != code {
            break;
        }
        let known = str::from_utf8(op.word()).unwrap_or("");
        if is_near(page.alloc(), word, known)? {
            say_near(page, op.word())?;
            return Ok(true);
        }
    }
    Ok(false)
}

/// Says which first word of a sample was probably meant.
fn say_near_sample(page: &mut Page, samples: &str, word: &str) -> Result<bool, NoMemory> {
    for sample in samples.lines() {
        let first = first_word(sample);
        if is_near(page.alloc(), word, first)? {
            say_near(page, first.as_bytes())?;
            return Ok(true);
        }
    }
    Ok(false)
}

/// Says how to write an instruction whose colour is missing.
fn say_coloured(page: &mut Page, samples: &str, word: &str) -> Result<bool, NoMemory> {
    for sample in samples.lines() {
        if let Some(coloured) = first_word(sample).strip_suffix("_G")
            && word.eq_ignore_ascii_case(coloured)
        {
            page.say(format_args!(": write `{coloured}_G` for green or `{coloured}_B` for blue"))?;
            return Ok(true);
        }
    }
    Ok(false)
}

/// Says which word was probably meant.
fn say_meant(page: &mut Page, word: &str, is_code: bool) -> Result<(), NoMemory> {
    if let Some(said) = of_machine(word) {
        return page.say(format_args!(": {said}"));
    }
    let samples = sample_lines(page.alloc(), INSTR)?;
    if say_coloured(page, samples.as_str(), word)?
        || say_near_operation(page, word)?
        || say_near_table(page, word, is_code)?
        || say_near_sample(page, samples.as_str(), word)?
    {
        return Ok(());
    }
    page.say(": `man talft-assembly` lists the instructions")
}

/// Says that no line of an assembly text begins with this word, and what to write. `is_code` says whether the line is
/// among instructions.
pub(crate) fn say_unknown(page: &mut Page, word: &[u8], is_code: bool) -> Result<(), NoMemory> {
    let habit = habit_of(word);
    if !habit.is_empty() {
        page.say("unexpected ")?;
        page.quote(word)?;
        return page.say(format_args!(": {habit}"));
    }
    page.say("unknown instruction ")?;
    page.quote(word)?;
    say_meant(page, str::from_utf8(word).unwrap_or(""), is_code)
}
