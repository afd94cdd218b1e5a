//! Explains why fault lists, campaigns and scripts are refused.
use crate::content::{Content, say_other_kind};
use crate::excerpt::Place;
use crate::lines::wrong_line;
use crate::page::Page;
use crate::strikes::{is_fault, say_wrong_part};
use ft_isa::{NoMemory, read_strike};

/// How many bytes at the start of a line could begin a fault.
fn begun(line: &[u8]) -> usize {
    match read_strike(line) {
        Ok(_) => 0,
        Err(form) => form.at,
    }
}

/// Whether other words follow a fault on its line, as in a campaign's output.
fn has_verdict(line: &str) -> bool {
    match line.split_once([' ', '\t']) {
        Some((fault, _)) => is_fault(fault),
        None => false,
    }
}

/// What may separate two faults that share a line.
const SEPARATORS: &[char] = &[' ', '\t', ',', ';'];

/// The text up to the first separator.
fn first_of(text: &str) -> &str {
    match text.split_once(SEPARATORS) {
        Some((first, _)) => first,
        None => text,
    }
}

/// The place of the second of two faults that share a line.
pub(crate) fn second_fault(line: &str) -> Option<usize> {
    let (first, rest) = line.split_once(SEPARATORS)?;
    let second = rest.trim_start_matches(SEPARATORS);
    if is_fault(first) && is_fault(first_of(second)) {
        Some(line.len().saturating_sub(second.len()))
    } else {
        None
    }
}

/// Says what is wrong with a whole list, with a campaign or with a script.
fn say_whole(page: &mut Page, number: u64, told: u64) -> Result<(), NoMemory> {
    match number {
        1 => page.say(format_args!("line {told} is not a fault: expected STEP:SITE:WORD")),
        2 => page.say(
            "the fault list is too long: at most 65536 lines and 4194304 bytes are allowed; `talft-campaign` splits longer lists",
        ),
        3 => page.say(format_args!(
            "the campaign is too long: faults times steps is {told}, and at most 1000000000 is allowed; give fewer faults or a smaller `--steps`"
        )),
        _ => page.say(format_args!("the script is too long: at most {told} bytes are allowed")),
    }
}

/// The message for a line that comes from a campaign's output.
const VERDICT: &str =
    "this line has a verdict after the fault; a fault list has only STEP:SITE:WORD";

/// Explains why a line of a list is not a fault.
fn explain_line(page: &mut Page, name: &str, start: Place<'_>) -> Result<(), NoMemory> {
    if let Some((at, words)) = wrong_line(start.line()) {
        return start.after(at).explain(page, name, words);
    }
    let line = str::from_utf8(start.line()).unwrap_or("");
    if let Some(at) = second_fault(line) {
        return start
            .after(at)
            .explain(page, name, "only one fault per line");
    }
    let place = start.after(begun(start.line()));
    if has_verdict(line) {
        return place.explain(page, name, VERDICT);
    }
    page.head_at(name, &place)?;
    page.say("invalid fault: expected STEP:SITE:WORD; ")?;
    say_wrong_part(page, line)?;
    page.say("\n")?;
    place.show(page, 1)
}

/// Explains why a fault list, a campaign or a script is refused. The list is given if it can be read again and the
/// refusal names a line.
pub fn explain_list(
    page: &mut Page,
    name: &str,
    number: u64,
    told: u64,
    list: Option<&[u8]>,
) -> Result<(), NoMemory> {
    if let Some(list) = list
        && let Some(start) = Place::of_line(list, told as usize)
    {
        if say_other_kind(page, name, list, Content::List)? {
            return Ok(());
        }
        return explain_line(page, name, start);
    }
    page.head(name)?;
    say_whole(page, number, told)?;
    page.say("\n")
}
