//! Finds the modules that cause a link to be refused, and explains why.
ghost use Rattle.std.specs.Prelude.{◌≡◌, ◌<◌};
ghost use Rattle.ft_types.specs.Spellable.{IsSpellable};

use crate::checks::explain_check;
use crate::refusal::Refusal;
use ft_checker::CheckError;
use ft_edge::Shelf;
use ft_isa::{NoMemory, Steps};
use ft_mistakes::{OBJECT_LIMIT, Page, explain_object, load, rule};
use ft_types::Program;
use ft_view::View;
use std::alloc::Global;
use std::marker::Brand;
use std::sync::ledger::{Blank, Ledger};

/// Whether an object is accepted. The checker's steps are counted in a ledger.
fn is_accepted_over<P: Program, L: Ledger>(
    alloc: Global,
    program: &P,
    blank: Blank,
) -> Result<bool, NoMemory>
    requires name { blank.name ≡ L.name }
    requires parts { blank.parts ≡ L.parts }
    requires some { 0 < L.parts }
    requires spellable { IsSpellable (P.object program.now) }
{
    let mut steps = Steps::<L>::new(blank);
    match ft_checker::check(alloc, program, &mut steps) {
        Ok(_) => Ok(true),
        Err(CheckError::NoMemory) => Err(NoMemory),
        Err(_) => Ok(false),
    }
}

/// Whether an object is accepted.
fn is_accepted<P: Program>(alloc: Global, program: &P) -> Result<bool, NoMemory>
    requires { IsSpellable (P.object program.now) }
{
    is_accepted_over::<P, Brand>(alloc, program, Blank::new(1))
}

/// If a module is not an object, explains why; returns false if it is one, or cannot be read.
fn explain_if_object_is_bad<S: Shelf>(
    page: &mut Page,
    file: &str,
    number: u64,
    at: u64,
    shelf: &mut S,
) -> Result<bool, NoMemory> {
    let Some(bytes) = load(page.alloc(), file, OBJECT_LIMIT, shelf)? else {
        return Ok(false);
    };
    if View::over(bytes.as_slice()).is_ok() {
        return Ok(false);
    }
    explain_object(page, file, number, at, Some(bytes.as_slice()))?;
    Ok(true)
}

/// Finds the first module of a link map that is not an object, and explains why.
pub(crate) fn explain_bad_object<S: Shelf>(
    page: &mut Page,
    name: &str,
    map: Option<&[u8]>,
    told: (u64, u64),
    shelf: &mut S,
) -> Result<(), NoMemory> {
    let (number, at) = told;
    for line in str::from_utf8(map.unwrap_or(&[])).unwrap_or("").lines() {
        if let Some(file) = line.strip_prefix("module ")
            && explain_if_object_is_bad(page, file, number, at, shelf)?
        {
            return Ok(());
        }
    }
    page.head(name)?;
    page.say("a module is not an object: ")?;
    page.say(rule(number))?;
    page.say(format_args!(", at byte {at}\n"))
}

/// If a module is not accepted, explains why; returns false if it is accepted, or cannot be read.
fn explain_if_unaccepted<S: Shelf>(
    page: &mut Page,
    file: &str,
    refusal: Refusal,
    shelf: &mut S,
) -> Result<bool, NoMemory> {
    let Some(bytes) = load(page.alloc(), file, OBJECT_LIMIT, shelf)? else {
        return Ok(false);
    };
    let Ok(view) = View::over(bytes.as_slice()) else {
        return Ok(false);
    };
    if is_accepted(page.alloc(), &view)? {
        return Ok(false);
    }
    explain_check(page, &view, file, refusal)?;
    Ok(true)
}

/// Finds the first module of a link map that is not accepted, and explains why.
pub(crate) fn explain_unaccepted<S: Shelf>(
    page: &mut Page,
    name: &str,
    map: Option<&[u8]>,
    refusal: Refusal,
    shelf: &mut S,
) -> Result<(), NoMemory> {
    for line in str::from_utf8(map.unwrap_or(&[])).unwrap_or("").lines() {
        if let Some(file) = line.strip_prefix("module ")
            && explain_if_unaccepted(page, file, refusal, shelf)?
        {
            return Ok(());
        }
    }
    page.head(name)?;
    page.say("a module is not accepted; run `talft check` on each to find it\n")
}
