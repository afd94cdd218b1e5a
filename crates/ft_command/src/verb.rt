//! The first word of a command.
ghost use Rattle.std.specs.Prelude.{◌≡◌, true, false, Some, IfSome};
ghost use Rattle.ft_command.specs.Commands.{name_of, takes_object, allowed_of};

use crate::allowed::Allowed;

/// The maximum value of `--steps` for a run.
const RUN_STEPS: u64 = 1_000_000_000;

/// The maximum value of `--steps` for a campaign.
const CAMPAIGN_STEPS: u64 = 1_000_000;

/// The maximum value of `--turns` for a meaning.
const TURNS: u64 = 1_000_000_000;

/// No options.
const NONE: Allowed = Allowed {
    steps: None,
    turns: None,
    fault: false,
    wild: false,
    faults: false,
};

/// A command, by its first word.
#[derive(Clone, Copy, Debug, PartialEq, Eq)]
pub enum Verb {
    /// `check`: checks an object.
    Check,
    /// `run`: checks an object and runs it.
    Run,
    /// `trial`: runs an object without checking it.
    Trial,
    /// `recover`: checks an object and runs it, and runs it again if a fault is detected.
    Recover,
    /// `campaign`: checks an object and tries a list of faults on it.
    Campaign,
    /// `survey`: tries a list of faults on an object without checking it.
    Survey,
    /// `compile`: compiles a source to an object.
    Compile,
    /// `exec`: compiles a source and runs its object.
    Exec,
    /// `mean`: writes the meaning of a source.
    Mean,
    /// `debug`: runs a debugger session on an object without checking it.
    Debug,
    /// `demo`: makes an object of this many turns, runs it and tries faults on it.
    Demo,
    /// `upgrade`: writes an object in version 2 of the format.
    Upgrade,
    /// `asm`: reads an assembly text and writes its object.
    Assemble,
    /// `dis`: writes the assembly text of an object.
    Disassemble,
    /// `schedule`: checks an object and writes its schedule.
    Schedule,
    /// `link`: reads a link map, and writes the object linked from its modules.
    Link,
}

impl Verb {
    /// The command with this name, if it takes an object.
    fn over_object(word: &str) -> Option<Verb>
        ensures some { IfSome result (λ verb. word.now ≡ name_of verb) }
        ensures exact { (verb : _) → takes_object verb ≡ true → word.now ≡ name_of verb → result ≡ Some verb }
    {
        if word == "check" {
            return Some(Verb::Check);
        }
        if word == "run" {
            return Some(Verb::Run);
        }
        if word == "trial" {
            return Some(Verb::Trial);
        }
        if word == "recover" {
            return Some(Verb::Recover);
        }
        if word == "campaign" {
            return Some(Verb::Campaign);
        }
        if word == "survey" {
            return Some(Verb::Survey);
        }
        if word == "debug" {
            return Some(Verb::Debug);
        }
        if word == "upgrade" {
            return Some(Verb::Upgrade);
        }
        if word == "dis" {
            return Some(Verb::Disassemble);
        }
        if word == "schedule" {
            return Some(Verb::Schedule);
        }
        None
    }

    /// The command with this name, if it takes a source, an assembly text, a link map or a number.
    fn over_other(word: &str) -> Option<Verb>
        ensures some { IfSome result (λ verb. word.now ≡ name_of verb) }
        ensures exact { (verb : _) → takes_object verb ≡ false → word.now ≡ name_of verb → result ≡ Some verb }
    {
        if word == "compile" {
            return Some(Verb::Compile);
        }
        if word == "exec" {
            return Some(Verb::Exec);
        }
        if word == "mean" {
            return Some(Verb::Mean);
        }
        if word == "demo" {
            return Some(Verb::Demo);
        }
        if word == "asm" {
            return Some(Verb::Assemble);
        }
        if word == "link" {
            return Some(Verb::Link);
        }
        None
    }

    /// The command with this name.
    pub(crate) fn read(word: &str) -> Option<Verb>
        ensures some { IfSome result (λ verb. word.now ≡ name_of verb) }
        ensures exact { (verb : _) → word.now ≡ name_of verb → result ≡ Some verb }
    {
        match Verb::over_object(word) {
            Some(verb) => Some(verb),
            None => Verb::over_other(word),
        }
    }

    /// The options that the command takes.
    pub(crate) fn allowed(self) -> Allowed
        ensures { result ≡ allowed_of self }
    {
        match self {
            Verb::Check
            | Verb::Compile
            | Verb::Demo
            | Verb::Upgrade
            | Verb::Assemble
            | Verb::Disassemble
            | Verb::Schedule
            | Verb::Link => NONE,
            Verb::Exec => Allowed {
                steps: Some(RUN_STEPS),
                ..NONE
            },
            Verb::Run | Verb::Trial | Verb::Recover => Allowed {
                steps: Some(RUN_STEPS),
                fault: true,
                wild: true,
                ..NONE
            },
            Verb::Campaign | Verb::Survey => Allowed {
                steps: Some(CAMPAIGN_STEPS),
                wild: true,
                faults: true,
                ..NONE
            },
            Verb::Mean => Allowed {
                turns: Some(TURNS),
                ..NONE
            },
            Verb::Debug => Allowed { wild: true, ..NONE },
        }
    }
}
