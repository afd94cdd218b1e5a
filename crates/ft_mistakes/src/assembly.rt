//! Explains why assembly texts are refused.
use crate::content::{Content, say_other_kind};
use crate::excerpt::Place;
use crate::lines::{MARKED, NOT_UTF8, RETURN, first_not_utf8, is_marked, wrong_extra};
use crate::listing::{cell_of, line_with};
use crate::mnemonics::{form_of, operand_of, say_unknown};
use crate::operands::{Operand, is_register, meaning_of, say_rule, word_at, word_start};
use crate::page::Page;
use crate::spaces::first_space;
use ft_isa::{FIRST_CELL, NoMemory};

/// The message for a line that is out of order.
const ORDER: &str =
    "this line is out of order: first come cells, then nodes, types (each with its `reg` and then `pend` lines), blocks (each with its instructions), and `entry`\n";

/// Says what must follow the first word of a line.
fn say_forms(page: &mut Page, word: &[u8], forms: &str) -> Result<(), NoMemory> {
    page.quote(word)?;
    page.say(format_args!(" is followed by {forms}"))
}

/// Says what is wrong with an operand of a line that begins with this word.
fn say_operand(
    page: &mut Page,
    operand: Operand<'_>,
    word: &[u8],
    forms: &str,
) -> Result<(), NoMemory> {
    if operand.text.is_empty() {
        let form = operand.form;
        let meaning = meaning_of(form);
        page.say(format_args!("missing {form}{meaning}: "))?;
        return say_forms(page, word, forms);
    }
    page.say(if operand.form == "nothing" {
        "unexpected "
    } else {
        "invalid "
    })?;
    page.quote(operand.text)?;
    page.say(": ")?;
    say_rule(page, operand)
}

/// Says what to write if a name or register was given where a number is expected, or a name where a register is.
fn say_instead(page: &mut Page, operand: Operand<'_>, text: &[u8]) -> Result<(), NoMemory> {
    let is_word = operand.form == "W";
    if is_word && is_register(operand.text) {
        return page.say("; to copy a register, add 0 to it, as in `add r1 r2 G 0`");
    }
    let Some(number) = cell_of(text, operand.text) else {
        return Ok(());
    };
    let address = FIRST_CELL.saturating_add(number);
    if is_word {
        return page.say(format_args!("; the address of this cell is {address}"));
    }
    if operand.form == "R" {
        return page.say(format_args!(
            "; put the address of this cell, {address}, into a register with `mov`"
        ));
    }
    Ok(())
}

/// Explains why a line that begins with a known word is refused.
fn explain_operands(
    page: &mut Page,
    name: &str,
    start: Place<'_>,
    word: &[u8],
    forms: &'static str,
    text: &[u8],
) -> Result<(), NoMemory> {
    let line = start.line();
    let Some(operand) = operand_of(page.alloc(), line, forms)? else {
        let place = start.after(word_start(line, 0));
        page.head_at(name, &place)?;
        say_forms(page, word, forms)?;
        page.say("\n")?;
        return place.show(page, word.len());
    };
    let place = start.after(operand.at);
    page.head_at(name, &place)?;
    say_operand(page, operand, word, forms)?;
    say_instead(page, operand, text)?;
    page.say("\n")?;
    place.show(page, operand.text.len())
}

/// A byte that no line may contain: its place in this line, and what is wrong with it.
fn wrong_byte(line: &[u8]) -> Option<(usize, &'static str)> {
    if is_marked(line) {
        return Some((0, MARKED));
    }
    if line.ends_with(b"\r") {
        return Some((line.len().saturating_sub(1), RETURN));
    }
    if let Some(wrong) = wrong_extra(line) {
        return Some(wrong);
    }
    if let Some(at) = first_not_utf8(line) {
        return Some((at, NOT_UTF8));
    }
    first_space(line)
}

/// Whether the line with this number is among the instructions of a text.
fn is_in_code(text: &[u8], number: usize) -> bool {
    line_with(text, b"block", number.saturating_sub(1)).is_some()
}

/// Explains why a line that fits no form is refused.
fn explain_form(
    page: &mut Page,
    name: &str,
    start: Place<'_>,
    text: &[u8],
) -> Result<(), NoMemory> {
    let line = start.line();
    if let Some((at, words)) = wrong_byte(line) {
        return start.after(at).explain(page, name, words);
    }
    let place = start.after(word_start(line, 0));
    let word = word_at(line, word_start(line, 0));
    if let Some(forms) = form_of(page.alloc(), word)? {
        return explain_operands(page, name, start, word, forms, text);
    }
    page.head_at(name, &place)?;
    say_unknown(page, word, is_in_code(text, start.number()))?;
    page.say("\n")?;
    place.show(page, word.len())
}

/// Explains that a line is out of order. `entry` is the number of the first line that begins with that word.
fn explain_order(
    page: &mut Page,
    name: &str,
    start: Place<'_>,
    entry: Option<usize>,
) -> Result<(), NoMemory> {
    let place = start.after(word_start(start.line(), 0));
    let word = word_at(start.line(), word_start(start.line(), 0));
    page.head_at(name, &place)?;
    match entry {
        Some(number) if number < start.number() && word == b"entry".as_slice() => page.say(
            format_args!("`entry` is there twice: delete this line or line {number}\n"),
        )?,
        Some(number) if number < start.number() => page.say(format_args!(
            "nothing may follow `entry`, which is line {number}: move that line to the end\n"
        ))?,
        _ => page.say(ORDER)?,
    }
    place.show(page, word.len())
}

/// Says what is wrong with a text as a whole.
fn say_whole(page: &mut Page, number: u64, told: u64) -> Result<(), NoMemory> {
    match number {
        1 => page.say(format_args!("line {told} is not a line of an assembly text")),
        2 => page.say(format_args!(
            "the text ends before line {told}: its last line must be `entry B`"
        )),
        _ => page.say(format_args!("the text is too long: at most {told} bytes are allowed")),
    }
}

/// Explains why an assembly text is refused. The text is given if it can be read again and the refusal names a line.
pub fn explain_text(
    page: &mut Page,
    name: &str,
    number: u64,
    told: u64,
    text: Option<&[u8]>,
) -> Result<(), NoMemory> {
    if let Some(text) = text
        && say_other_kind(page, name, text, Content::Assembly)?
    {
        return Ok(());
    }
    if let Some(text) = text
        && let Some(start) = Place::of_line(text, told as usize)
    {
        let start = start.in_short_line();
        return match number {
            1 => explain_form(page, name, start, text),
            _ => explain_order(page, name, start, line_with(text, b"entry", text.len())),
        };
    }
    page.head(name)?;
    say_whole(page, number, told)?;
    page.say("\n")
}
