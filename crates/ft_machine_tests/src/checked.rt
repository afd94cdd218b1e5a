//! Schedules of objects given as bytes.
ghost use Rattle.std.specs.Prelude.{◌≡◌, ◌<◌};
ghost use Rattle.ft_types.specs.Spellable.{IsSpellable};

use ft_checker::check;
use ft_isa::Steps;
use ft_object::decode;
use ft_sched::schedule;
use ft_types::Object;
use std::alloc::Global;
use std::marker::Brand;
use std::sync::ledger::{Blank, Ledger};
use std::test::Fail;

/// The schedule of an object.
fn schedule_counted<L: Ledger>(alloc: Global, object: &Object, blank: Blank) -> Result<Object, Fail>
    requires name { blank.name ≡ L.name }
    requires parts { blank.parts ≡ L.parts }
    requires some { 0 < L.parts }
    requires spellable { IsSpellable object.now }
{
    let mut steps = Steps::<L>::new(blank);
    let checked = check(alloc, object, &mut steps)?;
    Ok(schedule(alloc, &checked)?)
}

/// The object that bytes spell, and its schedule.
pub fn decode_and_schedule(alloc: Global, bytes: &[u8]) -> Result<(Object, Object), Fail> {
    let object = decode(alloc, bytes)?;
    let schedule = schedule_counted::<Brand>(alloc, &object, Blank::new(1))?;
    Ok((object, schedule))
}
