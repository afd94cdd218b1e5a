//! What the words of a command line ask for.
ghost use Rattle.std.specs.Prelude.{◌≡◌, map, string_bytes, IfOk};
ghost use Rattle.ft_command.specs.Commands.{Asks, Request, HasFewSteps, HasTurns, run_of, campaign_of, meaning_of, execution_of, debugging_of, turns_up_to, request_of};
ghost use Rattle.ft_command.specs.Asked.{given_of, run_view, campaign_view, meaning_view, execution_view, debugging_view, asked, asked_or_usage};

use crate::options::{OptionError, Options, read_options};
use crate::verb::Verb;
use ft_isa::{NoMemory, Strike, Wild, read_number};
use std::alloc::Global;

/// The maximum number of steps of a run if `--steps` is not given.
const STEPS: u64 = 1_000_000;

/// The maximum number of turns of a demonstration.
const DEMO_TURNS: u64 = 10_921;

/// The maximum number of turns of a meaning if `--turns` is not given.
const TURNS: u64 = 1_000_000;

/// A command with its operand and options.
#[derive(Drop)]
pub enum Command<'w> {
    /// The words are not a command.
    Usage,
    /// Checks the object in this file.
    Check(&'w str),
    /// Checks an object and runs it.
    Run(Run<'w>),
    /// Runs an object without checking it.
    Trial(Run<'w>),
    /// Checks an object and runs it, and runs it again if a fault is detected.
    Recover(Run<'w>),
    /// Checks an object and tries a list of faults on it.
    Campaign(Campaign<'w>),
    /// Tries a list of faults on an object without checking it.
    Survey(Campaign<'w>),
    /// Compiles the source in this file.
    Compile(&'w str),
    /// Compiles a source and runs its object.
    Exec(Execution<'w>),
    /// Writes the meaning of a source.
    Mean(Meaning<'w>),
    /// Runs a debugger session on an object without checking it.
    Debug(Debugging<'w>),
    /// Makes an object of this many turns, runs it and tries faults on it.
    Demo(u32),
    /// Writes the object in this file in version 2 of the format.
    Upgrade(&'w str),
    /// Reads the assembly text in this file and writes its object.
    Assemble(&'w str),
    /// Writes the assembly text of the object in this file.
    Disassemble(&'w str),
    /// Checks the object in this file and writes its schedule.
    Schedule(&'w str),
    /// Reads the link map in this file, and writes the object linked from its modules.
    Link(&'w str),
}

/// The run of an object: the file's name, the maximum number of steps, and the plan.
#[derive(Drop)]
pub struct Run<'w> {
    pub object: &'w str,
    pub steps: u64,
    pub strike: Option<Strike>,
    pub wild: Vec<Wild>,
}

/// The runs of an object under the faults of a list: the files' names, the maximum number of steps of each run, and the
/// answers to wild loads.
#[derive(Drop)]
pub struct Campaign<'w> {
    pub object: &'w str,
    pub faults: &'w str,
    pub steps: u64,
    pub wild: Vec<Wild>,
}

/// The meaning of a source: the file's name, and the maximum number of turns of its loops.
#[derive(Drop)]
pub struct Meaning<'w> {
    pub source: &'w str,
    pub turns: u64,
}

/// The run of the object that a source is compiled to: the file's name, and the maximum number of steps.
#[derive(Drop)]
pub struct Execution<'w> {
    pub source: &'w str,
    pub steps: u64,
}

/// A debugger session on an object: the file's name, and the answers to wild loads.
#[derive(Drop)]
pub struct Debugging<'w> {
    pub object: &'w str,
    pub wild: Vec<Wild>,
}

/// The run that an operand and options ask for.
fn run_of<'w>(alloc: Global, object: &'w str, options: Options<'w>) -> Run<'w>
    ensures { run_view result ≡ run_of object.now (given_of options.entry) }
{
    Run {
        object,
        steps: options.steps.unwrap_or(STEPS),
        strike: options.strike,
        wild: options.wild.unwrap_or(Vec::new(alloc)),
    }
}

/// The campaign that an operand, the name of a fault list, and options ask for.
fn campaign_of<'w>(
    alloc: Global,
    object: &'w str,
    options: Options<'w>,
    faults: &'w str,
) -> Campaign<'w>
    ensures { campaign_view result ≡ campaign_of object.now (given_of options.entry) faults.now }
{
    Campaign {
        object,
        faults,
        steps: options.steps.unwrap_or(STEPS),
        wild: options.wild.unwrap_or(Vec::new(alloc)),
    }
}

/// The meaning that an operand and options ask for.
fn meaning_of<'w>(source: &'w str, options: Options<'w>) -> Meaning<'w>
    ensures { meaning_view result ≡ meaning_of source.now (given_of options.entry) }
{
    Meaning {
        source,
        turns: options.turns.unwrap_or(TURNS),
    }
}

/// The execution that an operand and options ask for.
fn execution_of<'w>(source: &'w str, options: Options<'w>) -> Execution<'w>
    ensures { execution_view result ≡ execution_of source.now (given_of options.entry) }
{
    Execution {
        source,
        steps: options.steps.unwrap_or(STEPS),
    }
}

/// The debugger session that an operand and options ask for.
fn debugging_of<'w>(alloc: Global, object: &'w str, options: Options<'w>) -> Debugging<'w>
    ensures { debugging_view result ≡ debugging_of object.now (given_of options.entry) }
{
    Debugging {
        object,
        wild: options.wild.unwrap_or(Vec::new(alloc)),
    }
}

/// The number of turns of a demonstration, from 1 to 10,921; `None` for any other word.
fn turns_of(operand: &str) -> Option<u32>
    ensures { result ≡ turns_up_to 10921 operand.now }
{
    let Some(turns) = read_number(operand.as_bytes()) else {
        return None;
    };
    if turns < 1 {
        return None;
    }
    if turns > DEMO_TURNS {
        return None;
    }
    Some(turns as u32)
}

/// The command of a verb with its operand and options, if it has the options that it needs.
fn command_from<'w>(
    alloc: Global,
    verb: Verb,
    operand: &'w str,
    options: Options<'w>,
) -> Option<Command<'w>>
    ensures { asked_or_usage result ≡ request_of verb operand.now (given_of options.entry) }
{
    let command = match verb {
        Verb::Check => Command::Check(operand),
        Verb::Run => Command::Run(run_of(alloc, operand, options)),
        Verb::Trial => Command::Trial(run_of(alloc, operand, options)),
        Verb::Recover => Command::Recover(run_of(alloc, operand, options)),
        Verb::Campaign => {
            let Some(faults) = options.faults else {
                return None;
            };
            Command::Campaign(campaign_of(alloc, operand, options, faults))
        }
        Verb::Survey => {
            let Some(faults) = options.faults else {
                return None;
            };
            Command::Survey(campaign_of(alloc, operand, options, faults))
        }
        Verb::Compile => Command::Compile(operand),
        Verb::Exec => Command::Exec(execution_of(operand, options)),
        Verb::Mean => Command::Mean(meaning_of(operand, options)),
        Verb::Debug => Command::Debug(debugging_of(alloc, operand, options)),
        Verb::Demo => match turns_of(operand) {
            Some(turns) => Command::Demo(turns),
            None => return None,
        },
        Verb::Upgrade => Command::Upgrade(operand),
        Verb::Assemble => Command::Assemble(operand),
        Verb::Disassemble => Command::Disassemble(operand),
        Verb::Schedule => Command::Schedule(operand),
        Verb::Link => Command::Link(operand),
    };
    Some(command)
}

/// The command that the words ask for, or the usage line.
pub fn command_of(alloc: Global, words: &[String]) -> Result<Command<'_>, NoMemory>
    ensures ok { IfOk result (λ command. Asks (map string_bytes words.now) (asked command)) }
    ensures few_steps { IfOk result (λ command. HasFewSteps (asked command)) }
    ensures turns { IfOk result (λ command. HasTurns (asked command)) }
    ensures only { IfOk result (λ command. (other : Request) → Asks (map string_bytes words.now) other → other ≡ asked command) }
{
    let [first, operand, rest @ ..] = words else {
        return Ok(Command::Usage);
    };
    let Some(verb) = Verb::read(first.as_str()) else {
        return Ok(Command::Usage);
    };
    match read_options(alloc, verb.allowed(), rest) {
        Ok(options) => match command_from(alloc, verb, operand.as_str(), options) {
            Some(command) => Ok(command),
            None => Ok(Command::Usage),
        },
        Err(OptionError::Refused) => Ok(Command::Usage),
        Err(OptionError::NoMemory) => Err(NoMemory),
    }
}
