//! Explains which lines of a debugger script are not commands.
use crate::content::{Content, say_other_kind};
use crate::elsewhere::of_debugger;
use crate::excerpt::Place;
use crate::forms::first_word;
use crate::lines::wrong_words;
use crate::loads::load;
use crate::near::{is_near, say_near};
use crate::numbers::say_misfit;
use crate::page::Page;
use crate::strikes::say_site_and_word;
use ft_edge::Shelf;
use ft_isa::{NoMemory, read_site};
use ft_script::{Command, read_script};

/// The maximum size of a script in bytes.
const SCRIPT_LIMIT: usize = 1_048_576;

/// The maximum number of steps of one command.
const STEP_LIMIT: u64 = 1_000_000;

/// The maximum number of lines explained.
const MOST_LINES: usize = 10;

/// The commands of the debugger: the first word of each, and its form.
const COMMANDS: &[(&str, &str)] = &[
    ("step", "step N"),
    ("go", "go N"),
    ("back", "back N"),
    ("zap", "zap SITE WORD"),
    ("reg", "reg R"),
    ("queue", "queue"),
    ("cell", "cell NAME"),
    ("where", "where"),
    ("break", "break B I"),
];

/// Lists the commands of the debugger.
fn say_commands(page: &mut Page) -> Result<(), NoMemory> {
    let mut is_first = true;
    for (_, form) in COMMANDS {
        page.say(if is_first { "" } else { ", " })?;
        page.quote(form.as_bytes())?;
        is_first = false;
    }
    Ok(())
}

/// The form of the command that begins with this word.
fn form_of(first: &str) -> Option<&'static str> {
    for (word, form) in COMMANDS {
        if first == *word {
            return Some(*form);
        }
    }
    None
}

/// Where the word at fault begins in a line that begins with a command's name: in a `zap` command, the invalid site or
/// else the word after the site; otherwise the start of the line.
fn place_in(line: &str) -> usize {
    let Some((site, _)) = line
        .strip_prefix("zap ")
        .and_then(|rest| rest.split_once(' '))
    else {
        return 0;
    };
    if read_site(site.as_bytes()).is_none() {
        4
    } else {
        site.len().saturating_add(5)
    }
}

/// Says what is wrong with the words of a command that should have this form.
fn say_invalid(page: &mut Page, line: &str, form: &'static str) -> Result<(), NoMemory> {
    page.say(format_args!("invalid command: expected `{form}`"))?;
    if form.ends_with(" N")
        && let Some((_, number)) = line.split_once(' ')
    {
        page.say("; ")?;
        return say_misfit(page, number.as_bytes(), STEP_LIMIT);
    }
    match line.strip_prefix("zap ") {
        Some(rest) => {
            page.say("; ")?;
            say_site_and_word(page, rest, ' ')
        }
        None => Ok(()),
    }
}

/// Says what is wrong with a line that is not a command.
fn say_bad(page: &mut Page, line: &str) -> Result<(), NoMemory> {
    let first = first_word(line);
    if let Some(form) = form_of(first) {
        return say_invalid(page, line, form);
    }
    page.say("unknown command ")?;
    page.quote(first.as_bytes())?;
    if let Some(said) = of_debugger(first) {
        return page.say(format_args!(": {said}"));
    }
    for (word, _) in COMMANDS {
        if is_near(page.alloc(), first, *word)? {
            return say_near(page, word.as_bytes());
        }
    }
    page.say(": the commands are ")?;
    say_commands(page)
}

/// Explains why a line is not a command.
fn explain_bad(page: &mut Page, start: Place<'_>) -> Result<(), NoMemory> {
    if let Some((at, words)) = wrong_words(start.line()) {
        return start.after(at).explain(page, "standard input", words);
    }
    let line = str::from_utf8(start.line()).unwrap_or("");
    let place = start.after(place_in(line));
    page.head_at("standard input", &place)?;
    say_bad(page, line)?;
    page.say("\n")?;
    place.show(page, 1)
}

/// Explains the first lines of a script that are not commands.
fn explain_lines(page: &mut Page, script: &[u8], commands: &[Command<'_>]) -> Result<(), NoMemory> {
    let mut explained: usize = 0;
    for (i, command) in commands.iter().enumerate() {
        if matches!(command, Command::Bad) && explained < MOST_LINES {
            explained = explained.saturating_add(1);
            if let Some(start) = Place::of_line(script, i.saturating_add(1)) {
                explain_bad(page, start)?;
            }
        }
    }
    Ok(())
}

/// The answer to a line that is not a command.
pub const BAD_COMMAND: &[u8] = b"bad command";

/// Explains a session whose script cannot be read again, if `line` is the answer to a line that is not a command.
fn explain_last(page: &mut Page, line: &[u8]) -> Result<(), NoMemory> {
    if line.trim_ascii() != BAD_COMMAND {
        return Ok(());
    }
    page.head("standard input")?;
    page.say("a line is not a command: the commands are ")?;
    say_commands(page)?;
    page.say("; put the script into a file and add `<FILE` to see what is wrong with each line\n")
}

/// Whether the first line of a script is not a command.
fn begins_wrong(commands: &[Command<'_>]) -> bool {
    matches!(commands.first(), Some(Command::Bad))
}

/// Explains which lines of a session's script are not commands, or that the script is a file of another kind. If the
/// script cannot be read again (`name` is `None`), says only that a line is not a command, and only if `line`, which the
/// session wrote, is `bad command`.
pub fn explain_session<S: Shelf>(
    page: &mut Page,
    name: Option<&'static str>,
    line: &[u8],
    shelf: &mut S,
) -> Result<(), NoMemory> {
    let Some(name) = name else {
        return explain_last(page, line);
    };
    let Some(script) = load(page.alloc(), name, SCRIPT_LIMIT, shelf)? else {
        return Ok(());
    };
    let commands = read_script(page.alloc(), script.as_slice())?;
    if begins_wrong(commands.as_slice())
        && say_other_kind(page, "standard input", script.as_slice(), Content::Script)?
    {
        return Ok(());
    }
    explain_lines(page, script.as_slice(), commands.as_slice())
}
