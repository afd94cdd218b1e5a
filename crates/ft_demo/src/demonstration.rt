//! Demonstrations.
ghost use Rattle.std.specs.Prelude.{◌≡◌, ◌≤◌, ◌<◌, [], length, None, IfOk};
ghost use Rattle.ft_demo.specs.Sample.{sample_object};
ghost use Rattle.ft_typing.specs.Accepted.{IsAccepted, refusal};
ghost use Rattle.ft_types.specs.Spellable.{IsSpellable};
ghost use Rattle.ft_demo.specs.Demonstrations.{EndsAs};
ghost use Rattle.ft_demo.specs.Shown.{IsShown, AreTotals};
ghost use Rattle.ft_format.specs.Broken.{broken, object_of};

use crate::demo_end::DemoEnd;
use crate::faults::all_faults;
use crate::making::sample;
use crate::report::put_lines;
use crate::tally::{STEPS, Tally, tally_run};
use ft_campaign::{CampaignEnd, Totals, campaign};
use ft_checker::{CheckError, Checked, check};
use ft_edge::{NullSink, Sink};
use ft_encode::encode;
use ft_isa::{Instr, NoMemory, Steps, Strike};
use ft_runs::Clean;
use ft_types::{Program, Table};
use ft_view::View;
use std::alloc::Global;
use std::marker::Brand;
use std::sync::ledger::{Blank, Ledger};

/// What a demonstration shows.
#[derive(Clone, Copy)]
pub(crate) struct Shown {
    /// The tally of the outputs.
    pub(crate) tally: Tally,
    /// How many faults have each verdict.
    pub(crate) totals: Totals,
}

/// The totals of a campaign whose lines are discarded.
fn totals_of<P: Program, L: Ledger>(
    alloc: Global,
    checked: &Checked<P>,
    faults: &[Strike],
    steps: &mut Steps<L>,
) -> Result<Totals, NoMemory>
    requires few { length faults.now ≤ 64 }
    ensures { IfOk result (AreTotals (P.object checked.now) faults.now) }
{
    let mut nowhere = NullSink::new();
    match campaign(alloc, checked, faults, &[], STEPS, &mut nowhere, steps) {
        CampaignEnd::Finished(totals) => Ok(totals),
        CampaignEnd::NoMemory => Err(NoMemory),
        CampaignEnd::TooMuch { product: _ } => unreachable!(),
        CampaignEnd::WriteFault => unreachable!(),
    }
}

/// What is shown of a checked program.
fn show_checked<P: Program, L: Ledger>(
    alloc: Global,
    checked: &Checked<P>,
    steps: &mut Steps<L>,
) -> Result<Shown, NoMemory>
    requires spellable { IsSpellable (P.object checked.now) }
    requires accepted { IsAccepted (P.object checked.now) }
    ensures { IfOk result (IsShown (P.object checked.now)) }
{
    let clean = Clean::start(alloc, checked)?;
    let tally = tally_run(clean);
    let faults = all_faults(alloc)?;
    let totals = totals_of(alloc, checked, faults.as_slice(), steps)?;
    Ok(Shown { tally, totals })
}

/// What is shown of an accepted program, with its own step counter.
fn show<P: Program, L: Ledger>(alloc: Global, program: &P, blank: Blank) -> Result<Shown, NoMemory>
    requires name { blank.name ≡ L.name }
    requires parts { blank.parts ≡ L.parts }
    requires some { 0 < L.parts }
    requires spellable { IsSpellable (P.object program.now) }
    requires accepted { IsAccepted (P.object program.now) }
    requires unrefused { refusal (P.object program.now) ≡ None }
    ensures { IfOk result (IsShown (P.object program.now)) }
{
    let mut steps = Steps::<L>::new(blank);
    let checked = match check(alloc, program, &mut steps) {
        Ok(checked) => checked,
        Err(CheckError::NoMemory) => return Err(NoMemory),
        Err(_) => unreachable!(),
    };
    show_checked(alloc, &checked, &mut steps)
}

/// Frees many instructions: their block is made small, and then freed. Once glibc frees a large block, it takes others
/// of up to that size from its heap (`M_MMAP_THRESHOLD` of mallopt(3)), where a table that grows is copied.
fn shrink_and_free(instrs: Table<Instr>) {
    let mut values = instrs.into_vec();
    values.truncate(1);
    values.shrink_to_fit();
}

/// The bytes of the object of `turns` turns.
fn spelled_sample(alloc: Global, turns: u32) -> Result<Vec<u8>, NoMemory>
    requires some { 1 ≤ turns }
    requires few { turns ≤ 10921 }
    ensures lawful { IfOk result (λ bytes. broken bytes.items ≡ None) }
    ensures object { IfOk result (λ bytes. object_of bytes.items ≡ sample_object turns) }
    ensures spellable { IfOk result (λ bytes. IsSpellable (object_of bytes.items)) }
    ensures accepted { IfOk result (λ bytes. IsAccepted (object_of bytes.items)) }
{
    let object = sample(alloc, turns)?;
    let bytes = encode(alloc, &object)?;
    shrink_and_free(object.instrs);
    Ok(bytes)
}

/// The view of bytes that break no rule of the format.
fn view_of(bytes: &[u8]) -> View<'_>
    requires { broken bytes.now ≡ None }
    ensures { result ≡ bytes.now }
{
    match View::over(bytes) {
        Ok(view) => view,
        Err(_) => unreachable!(),
    }
}

/// What is shown of the object of `turns` turns, which is run in place from its bytes, as a loaded object is.
fn show_sample(alloc: Global, turns: u32) -> Result<Shown, NoMemory>
    requires some { 1 ≤ turns }
    requires few { turns ≤ 10921 }
    ensures { IfOk result (IsShown (sample_object turns)) }
{
    let bytes = spelled_sample(alloc, turns)?;
    let view = view_of(bytes.as_slice());
    show::<View, Brand>(alloc, &view, Blank::new(1))
}

/// Makes the object of `turns` turns, from 1 to 10,921, checks it, runs it without a fault for at most 131,072 steps,
/// and tries 64 faults on it. Writes a line of the outputs and then the last line of the campaign; no verdict is
/// `Corrupt`. If it returns `NoMemory`, nothing was written. It returns `WriteFault` only after a failed put, which was
/// the last.
pub fn demo<K: Sink>(alloc: Global, turns: u32, out: &mut K) -> DemoEnd
    requires some { 1 ≤ turns }
    requires few { turns ≤ 10921 }
    ensures ends { EndsAs result turns (K.log out.old) (K.log out.new) }
{
    let Ok(shown) = show_sample(alloc, turns) else {
        return DemoEnd::NoMemory;
    };
    match put_lines(shown.tally, shown.totals, out) {
        Ok(()) => DemoEnd::Finished,
        Err(_) => DemoEnd::WriteFault,
    }
}
