//! The help texts.
use crate::forms::{
    COMMANDS, OPTIONS, first_word, form, operand_of, summary_and_example, value_of,
};
use crate::page::Page;
use crate::version::VERSION;
use ft_isa::NoMemory;

/// The width of the column for a command with its operand.
const WIDTH: usize = 18;

/// Whether the first word asks for help.
pub(crate) fn is_help(word: &str) -> bool {
    word == "help" || word == "--help" || word == "-h"
}

/// Whether a word after a command asks for help with that command.
pub(crate) fn asks_for_help(word: &str) -> bool {
    word == "--help" || word == "-h"
}

/// Whether a word asks for the version.
fn is_version(word: &str) -> bool {
    word == "--version" || word == "-V"
}

/// Whether words ask for the version.
pub fn asks_for_version(words: &[String]) -> bool {
    match words {
        [first, ..] => is_version(first.as_str()),
        [] => false,
    }
}

/// Writes the version.
pub(crate) fn say_version(page: &mut Page) -> Result<(), NoMemory> {
    page.say(format_args!("talft {VERSION}\n"))
}

/// Writes a command with its operand, and what it does.
fn say_command(page: &mut Page, command: &'static str) -> Result<(), NoMemory> {
    let name = first_word(command);
    let operand = operand_of(command);
    let (summary, _) = summary_and_example(command);
    page.say(format_args!("  {name} {operand}"))?;
    let width = name.len().saturating_add(operand.len()).saturating_add(1);
    page.repeat(' ', WIDTH.saturating_sub(width))?;
    page.say(format_args!("{summary}\n"))
}

/// Says what each command does.
pub(crate) fn say_commands(page: &mut Page) -> Result<(), NoMemory> {
    page.say("commands:\n")?;
    for command in COMMANDS {
        say_command(page, *command)?;
    }
    Ok(())
}

/// Writes an option and its help text.
fn say_option(page: &mut Page, option: &'static str) -> Result<(), NoMemory> {
    page.say(format_args!("  {option}\n"))
}

/// Writes the general help: how commands are written, what each does, and all options.
pub(crate) fn say_help(page: &mut Page) -> Result<(), NoMemory> {
    say_version(page)?;
    page.say("usage: talft COMMAND OPERAND [OPTION VALUE ..]\n\n")?;
    say_commands(page)?;
    page.say("\noptions:\n")?;
    for option in OPTIONS {
        say_option(page, *option)?;
    }
    page.say("\nexample:\n  talft exec fibonacci.src\n\nmore: `talft help COMMAND`, `man talft`\n")
}

/// Says how a command is written.
pub(crate) fn say_form(page: &mut Page, command: &'static str) -> Result<(), NoMemory> {
    let written = form(command);
    page.say(format_args!("usage: talft {written}\n"))
}

/// Says what a command does.
pub(crate) fn say_summary(page: &mut Page, command: &'static str) -> Result<(), NoMemory> {
    let (summary, _) = summary_and_example(command);
    page.say(format_args!("  {summary}\n"))
}

/// Lists the options that a command takes.
fn say_options(page: &mut Page, command: &'static str) -> Result<(), NoMemory> {
    let mut is_first = true;
    for option in OPTIONS {
        if value_of(command, first_word(*option)).is_some() {
            if is_first {
                page.say("\noptions:\n")?;
                is_first = false;
            }
            say_option(page, *option)?;
        }
    }
    Ok(())
}

/// Writes the help for a command: how it is written, what it does, its options and an example.
pub(crate) fn say_help_of(page: &mut Page, command: &'static str) -> Result<(), NoMemory> {
    let (_, example) = summary_and_example(command);
    say_version(page)?;
    say_form(page, command)?;
    say_summary(page, command)?;
    say_options(page, command)?;
    page.say(format_args!("\nexample:\n  {example}\n\nmore: `man talft`\n"))
}
