//! The kinds of nodes, as assembly texts name them.
use crate::mnemonics::say_near_operation;
use crate::near::{is_near, say_near};
use crate::operands::{Operand, place_of_word, word, wrong_operand};
use crate::page::Page;
use crate::samples::{NODE, sample_lines};
use ft_isa::{NoMemory, Op};
use std::alloc::Global;

/// The words after `node` for kinds whose operands have names of their own.
const NAMED: &[(&str, &str)] = &[
    ("sel", "SCOPE KIND M A"),
    ("upd", "SCOPE KIND M A V"),
    ("rem", "SCOPE KIND A LENGTH"),
];

/// The words after `node` for other kinds: a kind has the first of these forms that fits all its samples.
const FORMS: &[&str] = &[
    "SCOPE KIND",
    "SCOPE KIND I",
    "SCOPE KIND W",
    "SCOPE KIND A B",
    "SCOPE KIND A B C",
];

/// The words after `node` for an operation.
const OPERATION: &str = "SCOPE KIND A B";

/// The kind of a sample; empty for an operation.
fn kind_of(sample: &str) -> &[u8] {
    let kind = word(sample.as_bytes(), 2);
    if Op::of_word(kind).is_some() {
        &[]
    } else {
        kind
    }
}

/// Whether some sample is of this kind.
fn is_kind(samples: &str, kind: &[u8]) -> bool {
    samples.lines().any(|sample| kind_of(sample) == kind)
}

/// Whether all samples of a kind fit this form.
fn have_form(samples: &str, kind: &[u8], form: &'static str) -> bool {
    for sample in samples.lines() {
        if kind_of(sample) == kind && wrong_operand(sample.as_bytes(), form).is_some() {
            return false;
        }
    }
    true
}

/// The words after `node` for this kind; `None` if there is no such kind.
fn form_of(samples: &str, kind: &[u8]) -> Option<&'static str> {
    if Op::of_word(kind).is_some() {
        return Some(OPERATION);
    }
    if kind.is_empty() || !is_kind(samples, kind) {
        return None;
    }
    for (named, form) in NAMED {
        if named.as_bytes() == kind {
            return Some(*form);
        }
    }
    for form in FORMS {
        if have_form(samples, kind, *form) {
            return Some(*form);
        }
    }
    None
}

/// The operand at fault in a node of an unknown kind: its scope if that is wrong, otherwise its kind.
fn wrong_head(line: &[u8]) -> Option<Operand<'_>> {
    match wrong_operand(line, "SCOPE KIND") {
        Some(wrong) if wrong.form != "nothing" => Some(wrong),
        _ => Some(Operand {
            at: place_of_word(line, 2),
            text: word(line, 2),
            form: "KIND",
        }),
    }
}

/// The operand of a node that does not fit its kind.
pub(crate) fn wrong_node(alloc: Global, line: &[u8]) -> Result<Option<Operand<'_>>, NoMemory> {
    let samples = sample_lines(alloc, NODE)?;
    Ok(match form_of(samples.as_str(), word(line, 2)) {
        Some(form) => wrong_operand(line, form),
        None => wrong_head(line),
    })
}

/// Lists the kinds of nodes.
fn say_all(page: &mut Page, samples: &str) -> Result<(), NoMemory> {
    let mut last: &[u8] = &[];
    page.say("a node is ")?;
    for sample in samples.lines() {
        let kind = kind_of(sample);
        if !kind.is_empty() && kind != last {
            page.say(if last.is_empty() { "" } else { ", " })?;
            page.quote(kind)?;
            last = kind;
        }
    }
    page.say(" or an operation")
}

/// Says which kind was probably meant; returns false if none is similar.
fn say_near_kind(page: &mut Page, samples: &str, text: &str) -> Result<bool, NoMemory> {
    for sample in samples.lines() {
        let kind = str::from_utf8(kind_of(sample)).unwrap_or("");
        if is_near(page.alloc(), text, kind)? {
            say_near(page, kind.as_bytes())?;
            return Ok(true);
        }
    }
    Ok(false)
}

/// Lists the kinds of nodes, and says which one was probably meant by an unknown kind.
pub(crate) fn say_kinds(page: &mut Page, text: &[u8]) -> Result<(), NoMemory> {
    let samples = sample_lines(page.alloc(), NODE)?;
    let text = str::from_utf8(text).unwrap_or("");
    say_all(page, samples.as_str())?;
    if !say_near_kind(page, samples.as_str(), text)? {
        say_near_operation(page, text)?;
    }
    Ok(())
}
