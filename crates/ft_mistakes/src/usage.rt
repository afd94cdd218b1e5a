//! Explains why words are not a command.
use crate::dashes::{Dashed, dashed_option, first_dashed, say_dashed};
use crate::forms::{COMMANDS, OPTIONS, command_lines, first_word, most_of, operand_of, value_of};
use crate::help::{
    asks_for_help, asks_for_version, is_help, say_commands, say_form, say_help, say_help_of,
    say_summary, say_version,
};
use crate::lists::second_fault;
use crate::near::{is_near, say_near};
use crate::numbers::{is_number, say_misfit};
use crate::page::Page;
use crate::strikes::{is_fault, say_wrong_part};
use ft_isa::{NoMemory, read_strike, read_wild};

/// Whether an option was given among these words, which alternate between options and values.
fn is_given(words: &[String], option: &str) -> bool {
    for (i, word) in words.iter().enumerate() {
        if i % 2 == 0 && word.as_str() == option {
            return true;
        }
    }
    false
}

/// What to do instead of giving two faults.
const ONE_FAULT: &str =
    "a run takes one fault; `talft campaign OBJECT --faults FILE` tries each fault of a list";

/// Says that an option is given twice.
fn say_twice(page: &mut Page, option: &str) -> Result<(), NoMemory> {
    page.say(format_args!("`{option}` is given twice"))?;
    if option != "--fault" {
        return Ok(());
    }
    page.say(": ")?;
    page.say(ONE_FAULT)
}

/// Says what is wrong with the value of `--fault`; returns false if nothing is.
fn say_fault(page: &mut Page, value: &str) -> Result<bool, NoMemory> {
    if read_strike(value.as_bytes()).is_ok() {
        return Ok(false);
    }
    page.say("invalid fault ")?;
    page.quote(value.as_bytes())?;
    page.say(": expected STEP:SITE:WORD; ")?;
    if second_fault(value).is_some() {
        page.say(ONE_FAULT)?;
        return Ok(true);
    }
    say_wrong_part(page, value)?;
    Ok(true)
}

/// Whether a list is written with spaces, so that the shell may have split it.
fn is_spaced(list: &str) -> bool {
    list.ends_with(',') || list.contains(' ')
}

/// Says what is wrong with the value of `--wild`; returns false if nothing is.
fn say_wild(page: &mut Page, value: &str) -> Result<bool, NoMemory> {
    if read_wild(page.alloc(), value.as_bytes()).is_ok() {
        return Ok(false);
    }
    page.say("invalid list ")?;
    page.quote(value.as_bytes())?;
    page.say(
        " for `--wild`: expected at most 4096 answers separated by commas, each a number or `stop`",
    )?;
    if is_spaced(value) {
        page.say("; write it without spaces, as in `1,2`")?;
    }
    Ok(true)
}

/// Says what is wrong with the number given for an option, which is at most `most`; returns false if nothing is.
fn say_number(page: &mut Page, option: &str, value: &str, most: u64) -> Result<bool, NoMemory> {
    if is_number(value.as_bytes(), most) {
        return Ok(false);
    }
    page.say("invalid number ")?;
    page.quote(value.as_bytes())?;
    page.say(format_args!(" for `{option}`: expected 0 to {most}; "))?;
    say_misfit(page, value.as_bytes(), most)?;
    Ok(true)
}

/// Says what is wrong with the value of an option; returns false if nothing is.
fn say_value(page: &mut Page, option: &str, value: &str, most: u64) -> Result<bool, NoMemory> {
    match option.as_bytes() {
        b"--fault" => say_fault(page, value),
        b"--wild" => say_wild(page, value),
        b"--faults" => Ok(false),
        _ => say_number(page, option, value, most),
    }
}

/// Says which option of a command was probably meant.
fn say_near_option(page: &mut Page, command: &'static str, word: &str) -> Result<(), NoMemory> {
    for option in OPTIONS {
        let option = first_word(*option);
        if value_of(command, option).is_some() && is_near(page.alloc(), word, option)? {
            return say_near(page, option.as_bytes());
        }
    }
    Ok(())
}

/// Whether this is an option of some command.
fn is_option(word: &str) -> bool {
    OPTIONS.iter().any(|option| first_word(*option) == word)
}

/// How many commands take an option.
fn count_takers(option: &str) -> usize {
    let mut count: usize = 0;
    for command in COMMANDS {
        let is_taker = value_of(*command, option).is_some();
        count = count.saturating_add(usize::from(is_taker));
    }
    count
}

/// The separator before an item of a list, given how many items are left, this one included.
fn separator(is_first: bool, left: usize) -> &'static str {
    match left {
        _ if is_first => "",
        1 => " and ",
        _ => ", ",
    }
}

/// Lists the commands that take an option.
fn say_takers(page: &mut Page, option: &str) -> Result<(), NoMemory> {
    let mut left = count_takers(option);
    let mut is_first = true;
    for command in COMMANDS {
        if value_of(*command, option).is_some() {
            page.say(separator(is_first, left))?;
            page.quote(first_word(*command).as_bytes())?;
            is_first = false;
            left = left.saturating_sub(1);
        }
    }
    Ok(())
}

/// How many options a command takes.
fn count_taken(command: &'static str) -> usize {
    let mut count: usize = 0;
    for option in OPTIONS {
        let is_taken = value_of(command, first_word(*option)).is_some();
        count = count.saturating_add(usize::from(is_taken));
    }
    count
}

/// Lists the options that a command takes.
fn say_taken(page: &mut Page, command: &'static str) -> Result<(), NoMemory> {
    let name = first_word(command);
    let mut left = count_taken(command);
    if left == 0 {
        return page.say(format_args!("`{name}` takes no options"));
    }
    page.say(format_args!("`{name}` takes "))?;
    let mut is_first = true;
    for option in OPTIONS {
        if value_of(command, first_word(*option)).is_some() {
            page.say(separator(is_first, left))?;
            page.quote(first_word(*option).as_bytes())?;
            is_first = false;
            left = left.saturating_sub(1);
        }
    }
    Ok(())
}

/// Says which commands take an option that this one does not take, and what this one takes.
fn say_elsewhere(page: &mut Page, command: &'static str, option: &str) -> Result<(), NoMemory> {
    page.say(": it is an option of ")?;
    say_takers(page, option)?;
    page.say("; ")?;
    say_taken(page, command)
}

/// Whether a word is the option that names the output file in other programs.
fn is_of_output(word: &str) -> bool {
    matches!(word.as_bytes(), b"-o" | b"--out" | b"--output")
}

/// Says that a command does not take an option.
fn say_unknown_option(page: &mut Page, command: &'static str, word: &str) -> Result<(), NoMemory> {
    page.say("unknown option ")?;
    page.quote(word.as_bytes())?;
    let name = first_word(command);
    page.say(format_args!(" for `{name}`"))?;
    if is_of_output(word) {
        return page.say(": it writes to standard output: add `>FILE`");
    }
    if is_option(word) {
        return say_elsewhere(page, command, word);
    }
    say_near_option(page, command, word)
}

/// Whether the last option among these words is `--wild`, with its value.
fn ends_with_list(before: &[String]) -> bool {
    match before {
        [.., option, _] => option.as_str() == "--wild",
        _ => false,
    }
}

/// Says that an argument follows the list of `--wild`, which the shell has probably split.
fn say_split(page: &mut Page, word: &str) -> Result<(), NoMemory> {
    page.say("unexpected argument ")?;
    page.quote(word.as_bytes())?;
    page.say(" after the list of `--wild`: write the list without spaces, as in `1,2`")
}

/// What an argument after the operand was probably meant to be; `None` if that is not known.
fn advice_on_extra(command: &'static str, word: &str) -> Option<&'static str> {
    let takes_steps = value_of(command, "--steps").is_some();
    let is_count = is_number(word.as_bytes(), u64::MAX);
    match first_word(command).as_bytes() {
        b"link" => Some(
            "`link` takes one MAP, a text with a line `module FILE` for each object, and writes to standard output",
        ),
        b"debug" => Some("commands come from standard input: put `<` before the script's name"),
        b"mean" if is_count => Some("put `--turns` before the number of turns"),
        _ if is_count && takes_steps => Some("put `--steps` before the number of steps"),
        b"campaign" | b"survey" if is_fault(word) => {
            Some("`--faults` takes a FILE with one fault per line")
        }
        b"campaign" | b"survey" => Some("the fault list comes after `--faults`"),
        b"run" | b"trial" | b"recover" if is_fault(word) => Some("put `--fault` before a fault"),
        b"run" | b"trial" | b"recover" if word.ends_with(".faults") => {
            Some("`talft campaign OBJECT --faults FILE` tries each fault of a list")
        }
        _ => None,
    }
}

/// Whether a command writes an object or an assembly text, which people keep in a file.
fn writes_file(command: &'static str) -> bool {
    matches!(
        first_word(command).as_bytes(),
        b"compile" | b"asm" | b"dis" | b"upgrade" | b"schedule"
    )
}

/// Says that an argument follows the operand where only options may.
fn say_extra(page: &mut Page, command: &'static str, word: &str) -> Result<(), NoMemory> {
    page.say("unexpected argument ")?;
    page.quote(word.as_bytes())?;
    let operand = operand_of(command);
    page.say(format_args!(" after {operand}: "))?;
    if let Some(advice) = advice_on_extra(command, word) {
        return page.say(advice);
    }
    page.say(format_args!("give only one {operand}"))?;
    page.say(if writes_file(command) {
        "; to write to a file, add `>FILE`"
    } else {
        ""
    })
}

/// Says that a command does not take this argument where only options may follow.
fn say_untaken(page: &mut Page, command: &'static str, word: &str) -> Result<(), NoMemory> {
    if word.is_empty() {
        return page.say("an argument is empty");
    }
    if !word.starts_with("-") {
        return say_extra(page, command, word);
    }
    if let Some((option, _)) = word.split_once(' ')
        && value_of(command, option).is_some()
    {
        page.quote(word.as_bytes())?;
        return page.say(" is one word: write two words");
    }
    if let Some((option, _)) = word.split_once('=')
        && let Some(value) = value_of(command, option)
    {
        page.quote(word.as_bytes())?;
        return page.say(format_args!(" is one word: write `{option} {value}`"));
    }
    say_unknown_option(page, command, word)
}

/// Says what is wrong with an option that follows these words; returns false if nothing is.
fn say_option(
    page: &mut Page,
    command: &'static str,
    before: &[String],
    option: &str,
    value: Option<&str>,
) -> Result<bool, NoMemory> {
    if ends_with_list(before) && !option.is_empty() && !option.starts_with("-") {
        say_split(page, option)?;
        return Ok(true);
    }
    let Some(called) = value_of(command, option) else {
        say_untaken(page, command, option)?;
        return Ok(true);
    };
    if is_given(before, option) {
        say_twice(page, option)?;
        return Ok(true);
    }
    match value {
        // If another option follows, the value was forgotten.
        Some(value) if value_of(command, value).is_none() => {
            say_value(page, option, value, most_of(command))
        }
        _ => {
            page.say(format_args!("missing {called} after `{option}`"))?;
            Ok(true)
        }
    }
}

/// Says what is wrong with the options of a command.
fn say_options(page: &mut Page, command: &'static str, options: &[String]) -> Result<(), NoMemory> {
    for (i, option) in options.iter().enumerate() {
        let value = options.get(i.saturating_add(1)).map(|value| value.as_str());
        let before = options.get(..i).unwrap_or(&[]);
        if i % 2 == 0 && say_option(page, command, before, option.as_str(), value)? {
            return Ok(());
        }
    }
    page.say("missing `--faults FILE`")
}

/// Says that the operand of `demo` is not a number of turns.
fn say_turns(page: &mut Page, word: &str, most: u64) -> Result<(), NoMemory> {
    page.say("invalid N ")?;
    page.quote(word.as_bytes())?;
    page.say(format_args!(": expected a number from 1 to {most}"))
}

/// Says that an option was given where the operand belongs.
fn say_misplaced(page: &mut Page, command: &'static str, word: &str) -> Result<(), NoMemory> {
    let called = operand_of(command);
    if word == "--" {
        return page.say(format_args!("unexpected `--`: {called} comes right after the command"));
    }
    page.say(format_args!("missing {called}: it comes before options such as "))?;
    page.quote(word.as_bytes())
}

/// Explains that a word begins with a typographic dash.
fn explain_dashed(
    page: &mut Page,
    command: Option<&'static str>,
    dashed: Dashed<'_>,
) -> Result<(), NoMemory> {
    say_dashed(page, dashed)?;
    match command {
        Some(command) => say_form(page, command),
        None => Ok(()),
    }
}

/// If the file that could not be read has the name of an option, explains that the operand was probably forgotten;
/// otherwise returns false.
pub fn explain_option_as_file(page: &mut Page, words: &[String]) -> Result<bool, NoMemory> {
    let [first, operand, ..] = words else {
        return Ok(false);
    };
    let Some(command) = command_lines(first.as_str()) else {
        return Ok(false);
    };
    if asks_for_help(operand.as_str()) {
        say_help_of(page, command)?;
        return Ok(true);
    }
    if let Some(dashed) = dashed_option(operand.as_str()) {
        explain_dashed(page, Some(command), dashed)?;
        return Ok(true);
    }
    if !operand.as_str().starts_with("--") {
        return Ok(false);
    }
    page.say("talft: error: ")?;
    say_misplaced(page, command, operand.as_str())?;
    page.say("\n")?;
    say_form(page, command)?;
    Ok(true)
}

/// How to name standard input.
const INPUT: &str = "; for standard input write `/dev/stdin`";

/// Whether the operand of a command may be standard input.
fn reads_input(command: &'static str) -> bool {
    !matches!(first_word(command).as_bytes(), b"demo" | b"debug")
}

/// Says what is wrong with the words after a command.
fn say_words(page: &mut Page, command: &'static str, rest: &[String]) -> Result<(), NoMemory> {
    let called = operand_of(command);
    let [operand, options @ ..] = rest else {
        let name = first_word(command);
        page.say(format_args!("missing {called} after `{name}`"))?;
        return page.say(if reads_input(command) { INPUT } else { "" });
    };
    if operand.as_str().starts_with("--") {
        return say_misplaced(page, command, operand.as_str());
    }
    if called == "N" && options.is_empty() {
        return say_turns(page, operand.as_str(), most_of(command));
    }
    say_options(page, command, options)
}

/// The commands that do most with a file, by its extension.
const READERS: &[(&str, &str)] = &[(".src", "exec"), (".obj", "run"), (".asm", "asm")];

/// Says which command was probably meant.
fn say_near_command(page: &mut Page, word: &str) -> Result<(), NoMemory> {
    for (extension, command) in READERS {
        if word.ends_with(*extension) {
            page.say(format_args!("; did you mean `talft {command} "))?;
            page.name(word)?;
            return page.say("`?");
        }
    }
    if matches!(word.as_bytes(), b"version" | b"-v" | b"-version") {
        return say_near(page, b"--version");
    }
    for command in COMMANDS {
        let name = first_word(*command);
        if is_near(page.alloc(), word, name)? {
            return say_near(page, name.as_bytes());
        }
    }
    Ok(())
}

/// The scripts in the folder `tools`.
const TOOLS: &[&str] = &[
    "build", "campaign", "cc", "dap", "debugger", "ending", "explain", "faults", "lines", "plot",
    "report", "set", "show", "wasm2asm",
];

/// Whether a word is the name of a script in the folder `tools`.
fn is_tool(word: &str) -> bool {
    TOOLS.iter().any(|tool| *tool == word)
}

/// Says that there is no such command.
fn say_unknown(page: &mut Page, word: &str) -> Result<(), NoMemory> {
    page.say("talft: error: unknown command ")?;
    page.quote(word.as_bytes())?;
    if is_tool(word) {
        return page.say(format_args!(
            ": that is a separate script, `talft-{word}`; see `man talft-{word}`\n"
        ));
    }
    say_near_command(page, word)?;
    page.say("\n")?;
    say_commands(page)?;
    page.say("more: `talft help`, `talft help COMMAND`\n")
}

/// The option with this name, which may lack its dashes.
fn option_lines(name: &str) -> Option<&'static str> {
    for option in OPTIONS {
        let known = first_word(*option);
        if known == name || known.strip_prefix("--") == Some(name) {
            return Some(*option);
        }
    }
    None
}

/// Writes the help for an option: its text, and the commands that take it.
fn say_help_of_option(page: &mut Page, option: &'static str) -> Result<(), NoMemory> {
    say_version(page)?;
    page.say(format_args!("  {option}\n\ntaken by "))?;
    say_takers(page, first_word(option))?;
    page.say("\n\nmore: `talft help COMMAND`, `man talft`\n")
}

/// Writes the requested help.
fn say_help_for(page: &mut Page, rest: &[String]) -> Result<(), NoMemory> {
    let [name, ..] = rest else {
        return say_help(page);
    };
    if let Some(command) = command_lines(name.as_str()) {
        return say_help_of(page, command);
    }
    match option_lines(name.as_str()) {
        Some(option) => say_help_of_option(page, option),
        None => say_unknown(page, name.as_str()),
    }
}

/// Explains why words are not a command.
pub fn explain_usage(page: &mut Page, words: &[String]) -> Result<(), NoMemory> {
    let [first, rest @ ..] = words else {
        page.say("talft: error: missing command\n")?;
        return say_help(page);
    };
    if is_help(first.as_str()) {
        return say_help_for(page, rest);
    }
    if asks_for_version(words) {
        return say_version(page);
    }
    if let Some(dashed) = first_dashed(words) {
        return explain_dashed(page, command_lines(first.as_str()), dashed);
    }
    let Some(command) = command_lines(first.as_str()) else {
        return say_unknown(page, first.as_str());
    };
    if rest.iter().any(|word| asks_for_help(word.as_str())) {
        return say_help_of(page, command);
    }
    page.say("talft: error: ")?;
    say_words(page, command, rest)?;
    page.say("\n")?;
    say_form(page, command)?;
    if rest.is_empty() {
        return say_summary(page, command);
    }
    Ok(())
}
