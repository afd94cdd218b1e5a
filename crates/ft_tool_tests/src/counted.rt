//! A late fault on the object of an endless counter: its verdict, the steps that it costs and the instructions fetched
//! for it.
ghost use Rattle.std.specs.Prelude.{◌≡◌, ◌+◌, ◌≤◌, ◌<◌};
ghost use Rattle.ft_types.specs.Spellable.{IsSpellable};

use ft_campaign::{CampaignEnd, Totals, campaign};
use ft_checker::{CheckError, Checked, check};
use ft_edge::{MemShelf, MemSink};
use ft_isa::{Instr, Reg, Site, Steps, Strike};
use ft_object::decode;
use ft_static::{Node, Nodes};
use ft_tests::status_of;
use ft_types::{Block, CellHead, Counts, Object, Program, RegType, TypeHead};
use std::alloc::Global;
use std::cell::Cell;
use std::marker::Brand;
use std::sync::ledger::{Blank, Ledger};
use std::test::Fail;

/// An endless counter.
const COUNTER: &[u8] = b"cell out = 0; while (1) { out = out + 1; }";

/// A program that counts how often it is asked for an instruction.
#[derive(Drop)]
struct Counting<'a> {
    object: &'a Object,
    fetches: Cell<u64>,
}

impl<'a> Nodes for Counting<'a> {
    ghost nodes = { λ c. c.object.now.nodes };

    fn node_count(&self) -> u32 {
        self.object.node_count()
    }

    fn node(&self, n: u32) -> Node {
        self.object.node(n)
    }
}

impl<'a> Program for Counting<'a> {
    ghost use Rattle.std.specs.Prelude.{refl, ⊤};

    ghost object = { λ c. c.object.now };

    type Code = ();

    ghost is_code = { λ c code. ⊤ };

    ghost nodes_are = { λ c. refl };

    fn counts(&self) -> Counts {
        self.object.counts()
    }

    fn entry(&self) -> u32 {
        self.object.entry()
    }

    fn instr(&self, i: u32) -> Instr {
        self.fetches.set(self.fetches.get().wrapping_add(1));
        self.object.instr(i)
    }

    fn code(&self) {}

    fn fetch(&self, code: (), at: usize) -> Instr {
        self.fetches.set(self.fetches.get().wrapping_add(1));
        self.object.fetch(code, at)
    }

    fn block(&self, b: u32) -> Block {
        self.object.block(b)
    }

    fn code_type(&self, t: u32) -> TypeHead {
        self.object.code_type(t)
    }

    fn reg_row(&self, t: u32, j: u32) -> RegType {
        self.object.reg_row(t, j)
    }

    fn queue_row(&self, t: u32, j: u32) -> (u32, u32) {
        self.object.queue_row(t, j)
    }

    fn subst_row(&self, n: u32) -> u32 {
        self.object.subst_row(n)
    }

    fn cell(&self, k: u32) -> CellHead {
        self.object.cell(k)
    }

    fn name(&self, k: u32) -> &[u8] {
        self.object.name(k)
    }
}

/// The object of the counter as bytes.
fn counter(rt: &impl AllocGlobal) -> Result<Vec<u8>, Fail> {
    let mut shelf = MemShelf::new(rt.alloc());
    shelf.add("source", COUNTER)?;
    let mut sink = MemSink::new(rt.alloc(), 10_000)?;
    let status = status_of(rt, "compile source", &mut shelf, &mut sink)?;
    if status != 0 {
        return Err(Fail::new(format_args!("compile answers {status}")));
    }
    Ok(sink.written().to_vec(rt.alloc())?)
}

/// The fault before step 99,000 that puts 1 into a register that is overwritten before it is read.
fn late_fault(r40: Reg) -> Strike
    ensures { result.step ≡ 99000 }
{
    Strike {
        step: 99_000,
        site: Site::R(r40),
        value: 1,
    }
}

/// Finds the verdict of a fault before step 99,000 in a run of 100,000 steps. It costs at most 101,696 steps, since the
/// last snapshot before the fault is at step 98,304.
fn judge_late<P: Program, L: Ledger>(
    alloc: Global,
    checked: &Checked<P>,
    fault: Strike,
    out: &mut MemSink,
    steps: &mut Steps<L>,
) -> CampaignEnd
    requires { fault.step ≡ 99000 }
    ensures { steps.new ≤ steps.old + 101696 }
{
    campaign(alloc, checked, &[fault], &[], 100_000, out, steps)
}

/// Checks a program and finds the verdict of a fault before step 99,000.
fn check_and_judge<P: Program, L: Ledger>(
    alloc: Global,
    program: &P,
    fault: Strike,
    out: &mut MemSink,
    blank: Blank,
) -> Result<CampaignEnd, CheckError>
    requires spellable { IsSpellable (P.object program.now) }
    requires late { fault.step ≡ 99000 }
    requires name { blank.name ≡ L.name }
    requires parts { blank.parts ≡ L.parts }
    requires some { 0 < L.parts }
{
    let mut steps = Steps::<L>::new(blank);
    let checked = check(alloc, program, &mut steps)?;
    Ok(judge_late(alloc, &checked, fault, out, &mut steps))
}

/// Checks a program and tries a fault on it ten times.
fn check_and_repeat<P: Program, L: Ledger>(
    alloc: Global,
    program: &P,
    fault: Strike,
    out: &mut MemSink,
    blank: Blank,
) -> Result<CampaignEnd, CheckError>
    requires spellable { IsSpellable (P.object program.now) }
    requires name { blank.name ≡ L.name }
    requires parts { blank.parts ≡ L.parts }
    requires some { 0 < L.parts }
{
    let mut steps = Steps::<L>::new(blank);
    let checked = check(alloc, program, &mut steps)?;
    Ok(campaign(alloc, &checked, &[fault; 10], &[], 100_000, out, &mut steps))
}

/// The totals of `count` masked faults.
fn all_masked(count: u32) -> CampaignEnd {
    CampaignEnd::Finished(Totals {
        masked: count,
        detected: 0,
        idle: 0,
        corrupt: 0,
    })
}

#[test]
fn a_late_fault_is_masked_from_the_last_snapshot(rt: HostRuntime) -> Result<(), Fail> {
    let bytes = counter(&rt)?;
    let object = decode(rt.alloc(), bytes.as_slice())?;
    let fault = late_fault(Reg::new(40).expect(&rt, "below 64"));
    let mut sink = MemSink::new(rt.alloc(), 300)?;
    let end = check_and_judge::<Object, Brand>(
        rt.alloc(),
        &object,
        fault,
        &mut sink,
        Blank::new(1),
    )?;
    assert!(rt; end == all_masked(1));
    assert!(rt; sink.written().starts_with(b"99000:r40:1 masked\n"));
    Ok(())
}

#[test]
fn ten_late_faults_fetch_little(rt: HostRuntime) -> Result<(), Fail> {
    let bytes = counter(&rt)?;
    let object = decode(rt.alloc(), bytes.as_slice())?;
    let program = Counting {
        object: &object,
        fetches: Cell::new(0),
    };
    let fault = late_fault(Reg::new(40).expect(&rt, "below 64"));
    let mut sink = MemSink::new(rt.alloc(), 300)?;
    let end = check_and_repeat::<Counting, Brand>(
        rt.alloc(),
        &program,
        fault,
        &mut sink,
        Blank::new(1),
    )?;
    assert!(rt; end == all_masked(10));
    assert!(rt; program.fetches.get() < 300_000);
    Ok(())
}
