//! Runs of an accepted object that are struck once.
ghost use Rattle.std.specs.Prelude.{◌≡◌, ◌<◌, Some};
ghost use Rattle.ft_types.specs.Spellable.{IsSpellable};

use ft_checker::{CheckError, Checked};
use ft_isa::{Colour, Site, Steps};
use ft_machine::Stepped;
use ft_object::decode;
use ft_runs::{Clean, Hit, Struck};
use ft_types::{Object, Program};
use ft_worked_objects::A;
use std::alloc::Global;
use std::marker::Brand;
use std::sync::ledger::{Blank, Ledger};
use std::test::Fail;

/// Checks an object, and counts the steps.
fn check_counted<'a, L: Ledger>(
    alloc: Global,
    object: &'a Object,
    blank: Blank,
) -> Result<Checked<'a, Object>, CheckError>
    requires name { blank.name ≡ L.name }
    requires parts { blank.parts ≡ L.parts }
    requires some { 0 < L.parts }
    requires spellable { IsSpellable object.now }
{
    let mut steps = Steps::<L>::new(blank);
    ft_checker::check(alloc, object, &mut steps)
}

/// Checks an object.
fn check<'a>(alloc: Global, object: &'a Object) -> Result<Checked<'a, Object>, CheckError>
    requires { IsSpellable object.now }
{
    check_counted::<Brand>(alloc, object, Blank::new(1))
}

/// The run that was struck, if one was.
fn struck<'a, 'w, P: Program>(hit: Hit<'a, 'w, P>) -> Option<Struck<'a, 'w, P>>
    ensures { (s : _) → result ≡ Some s → hit.entry ≡ Hit.Struck s }
{
    match hit {
        Hit::Struck(run) => Some(run),
        Hit::Idle(_) => None,
    }
}

/// The run as it was, if nothing was there to strike.
fn idle<'a, 'w, P: Program>(hit: Hit<'a, 'w, P>) -> Option<Clean<'a, P>>
    ensures { (c : _) → result ≡ Some c → hit.entry ≡ Hit.Idle c }
{
    match hit {
        Hit::Struck(_) => None,
        Hit::Idle(run) => Some(run),
    }
}

#[test]
fn a_run_is_struck_before_its_first_step(rt: HostRuntime) -> Result<(), Fail> {
    let object = decode(rt.alloc(), A)?;
    let checked = check(rt.alloc(), &object)?;
    let clean = Clean::start(rt.alloc(), &checked)?;
    assert_eq!(rt; clean.taken(), 0);
    let clean = idle(clean.strike(Site::QVal(0), 6, &[])).expect(&rt, "nothing is pending");
    assert_eq!(rt; clean.machine().pc(Colour::Green), 1);
    let mut run = struck(clean.strike(Site::PcG, 3, &[])).expect(&rt, "a counter is there");
    assert_eq!(rt; run.machine().pc(Colour::Green), 3);
    assert_eq!(rt; run.machine().pc(Colour::Blue), 1);
    assert_eq!(rt; run.step(), Stepped::Detected);
    assert_eq!(rt; run.step(), Stepped::Detected);
    Ok(())
}

#[test]
fn a_run_is_struck_after_a_step(rt: HostRuntime) -> Result<(), Fail> {
    let object = decode(rt.alloc(), A)?;
    let checked = check(rt.alloc(), &object)?;
    let mut clean = Clean::start(rt.alloc(), &checked)?;
    assert_eq!(rt; clean.step(), Stepped::Quiet);
    assert_eq!(rt; clean.taken(), 1);
    let mut run = struck(clean.strike(Site::PcG, 3, &[])).expect(&rt, "a counter is there");
    assert_eq!(rt; run.step(), Stepped::Quiet);
    assert_eq!(rt; run.step(), Stepped::Detected);
    Ok(())
}
