//! The options of a command.
ghost use Rattle.std.specs.Prelude.{◌≡◌, ℕ, map, string_bytes, codes, Some, IfSome, IfOk, OnOk, Err};
ghost use Rattle.ft_command.specs.Options.{Given, none_given, IsNumberUpTo, GivesSteps, GivesTurns, GivesStrike, GivesWild, GivesFaults, Gives, GivesAll};
ghost use Rattle.ft_command.specs.Asked.{given_of};

use crate::allowed::Allowed;
use ft_isa::{Strike, Wild, WildError, read_number, read_strike, read_wild};
use std::alloc::Global;
use thiserror::Error;

/// The options given so far.
#[derive(Drop)]
pub(crate) struct Options<'w> {
    pub steps: Option<u64>,
    pub turns: Option<u64>,
    pub strike: Option<Strike>,
    pub wild: Option<Vec<Wild>>,
    pub faults: Option<&'w str>,
}

/// Why options were refused.
#[derive(Clone, Copy, Debug, PartialEq, Eq, Error)]
pub(crate) enum OptionError {
    /// An option is not one of the command's, was given before, has no value, or has an invalid value.
    #[error("not an option of the command")]
    Refused,
    /// Memory ran out.
    #[error("out of memory")]
    NoMemory,
}

/// The value of an option that takes a number up to this one, if the option is allowed.
fn number_up_to(most: Option<u64>, value: &str) -> Option<u64>
    ensures some { IfSome result (IsNumberUpTo most value.now) }
    ensures exact { (n : ℕ) → IsNumberUpTo most value.now n → result ≡ Some n }
{
    let Some(most) = most else { return None };
    match read_number(value.as_bytes()) {
        Some(number) if number <= most => Some(number),
        _ => None,
    }
}

impl<'w> Options<'w> {
    /// Reads an option with its value.
    fn take(
        &mut self,
        alloc: Global,
        allowed: Allowed,
        name: &str,
        value: &'w str,
    ) -> Result<(), OptionError>
        ensures ok { OnOk result (Gives allowed name.now value.now (given_of self.old) (given_of self.new)) }
        ensures only { OnOk result ((new : Given) → Gives allowed name.now value.now (given_of self.old) new → new ≡ given_of self.new) }
        ensures refused { result ≡ Err OptionError.Refused → (new : Given) → ¬ (Gives allowed name.now value.now (given_of self.old) new) }
    {
        if name == "--steps" {
            return self.take_steps(allowed, value);
        }
        if name == "--turns" {
            return self.take_turns(allowed, value);
        }
        if name == "--fault" {
            return self.take_strike(allowed, value);
        }
        if name == "--wild" {
            return self.take_wild(alloc, allowed, value);
        }
        if name == "--faults" {
            return self.take_faults(allowed, value);
        }
        Err(OptionError::Refused)
    }

    fn take_steps(&mut self, allowed: Allowed, value: &str) -> Result<(), OptionError>
        ensures ok { OnOk result (GivesSteps allowed (codes "--steps") value.now (given_of self.old) (given_of self.new)) }
        ensures only { OnOk result ((new : Given) → GivesSteps allowed (codes "--steps") value.now (given_of self.old) new → new ≡ given_of self.new) }
        ensures refused { result ≡ Err OptionError.Refused → (new : Given) → ¬ (GivesSteps allowed (codes "--steps") value.now (given_of self.old) new) }
    {
        if self.steps.is_some() {
            return Err(OptionError::Refused);
        }
        match number_up_to(allowed.steps, value) {
            Some(steps) => {
                self.steps = Some(steps);
                Ok(())
            }
            None => Err(OptionError::Refused),
        }
    }

    fn take_turns(&mut self, allowed: Allowed, value: &str) -> Result<(), OptionError>
        ensures ok { OnOk result (GivesTurns allowed (codes "--turns") value.now (given_of self.old) (given_of self.new)) }
        ensures only { OnOk result ((new : Given) → GivesTurns allowed (codes "--turns") value.now (given_of self.old) new → new ≡ given_of self.new) }
        ensures refused { result ≡ Err OptionError.Refused → (new : Given) → ¬ (GivesTurns allowed (codes "--turns") value.now (given_of self.old) new) }
    {
        if self.turns.is_some() {
            return Err(OptionError::Refused);
        }
        match number_up_to(allowed.turns, value) {
            Some(turns) => {
                self.turns = Some(turns);
                Ok(())
            }
            None => Err(OptionError::Refused),
        }
    }

    fn take_faults(&mut self, allowed: Allowed, value: &'w str) -> Result<(), OptionError>
        ensures ok { OnOk result (GivesFaults allowed (codes "--faults") value.now (given_of self.old) (given_of self.new)) }
        ensures only { OnOk result ((new : Given) → GivesFaults allowed (codes "--faults") value.now (given_of self.old) new → new ≡ given_of self.new) }
        ensures refused { result ≡ Err OptionError.Refused → (new : Given) → ¬ (GivesFaults allowed (codes "--faults") value.now (given_of self.old) new) }
    {
        if !allowed.faults {
            return Err(OptionError::Refused);
        }
        if self.faults.is_some() {
            return Err(OptionError::Refused);
        }
        self.faults = Some(value);
        Ok(())
    }

    fn take_strike(&mut self, allowed: Allowed, value: &str) -> Result<(), OptionError>
        ensures ok { OnOk result (GivesStrike allowed (codes "--fault") value.now (given_of self.old) (given_of self.new)) }
        ensures only { OnOk result ((new : Given) → GivesStrike allowed (codes "--fault") value.now (given_of self.old) new → new ≡ given_of self.new) }
        ensures refused { result ≡ Err OptionError.Refused → (new : Given) → ¬ (GivesStrike allowed (codes "--fault") value.now (given_of self.old) new) }
    {
        if !allowed.fault {
            return Err(OptionError::Refused);
        }
        if self.strike.is_some() {
            return Err(OptionError::Refused);
        }
        match read_strike(value.as_bytes()) {
            Ok(strike) => {
                self.strike = Some(strike);
                Ok(())
            }
            Err(_) => Err(OptionError::Refused),
        }
    }

    fn take_wild(&mut self, alloc: Global, allowed: Allowed, value: &str) -> Result<(), OptionError>
        ensures ok { OnOk result (GivesWild allowed (codes "--wild") value.now (given_of self.old) (given_of self.new)) }
        ensures only { OnOk result ((new : Given) → GivesWild allowed (codes "--wild") value.now (given_of self.old) new → new ≡ given_of self.new) }
        ensures refused { result ≡ Err OptionError.Refused → (new : Given) → ¬ (GivesWild allowed (codes "--wild") value.now (given_of self.old) new) }
    {
        if !allowed.wild {
            return Err(OptionError::Refused);
        }
        if self.wild.is_some() {
            return Err(OptionError::Refused);
        }
        match read_wild(alloc, value.as_bytes()) {
            Ok(wild) => {
                self.wild = Some(wild);
                Ok(())
            }
            Err(WildError::Form { at: _ }) => Err(OptionError::Refused),
            Err(WildError::NoMemory) => Err(OptionError::NoMemory),
        }
    }
}

/// The options that the words give, each followed by its value.
pub(crate) fn read_options(
    alloc: Global,
    allowed: Allowed,
    words: &[String],
) -> Result<Options<'_>, OptionError>
    ensures ok { IfOk result (λ options. GivesAll allowed (map string_bytes words.now) none_given (given_of options)) }
    ensures only { IfOk result (λ options. (given : Given) → GivesAll allowed (map string_bytes words.now) none_given given → given ≡ given_of options) }
    ensures refused { result ≡ Err OptionError.Refused → (given : Given) → ¬ (GivesAll allowed (map string_bytes words.now) none_given given) }
{
    let mut options = Options {
        steps: None,
        turns: None,
        strike: None,
        wild: None,
        faults: None,
    };
    let mut rest = words;
    while let [name, value, more @ ..] = rest {
        options.take(alloc, allowed, name.as_str(), value.as_str())?;
        rest = more;
    }
    if rest.is_empty() {
        Ok(options)
    } else {
        Err(OptionError::Refused)
    }
}
