//! The run of a schedule.
ghost use Rattle.ft_types.specs.Spellable.{IsSpellable};
ghost use Rattle.ft_typing.specs.Accepted.{IsAccepted};

use ft_checker::Checked;
use ft_compile::compile;
use ft_edge::MemSink;
use ft_isa::{NoMemory, Plan};
use ft_machine::RunEnd;
use ft_runs::{Clean, run};
use ft_sched::schedule;
use ft_types::Object;
use std::alloc::Global;
use std::test::Fail;

/// The first ten Fibonacci numbers.
const FIB: &str = "cell out = 0;
var a; var b; var t; var i;
b = 1;
while (i < 10) { out = a; t = a + b; a = b; b = t; i = i + 1; }
";

/// What it writes.
const NUMBERS: &str = "out 0\nout 1\nout 1\nout 2\nout 3\nout 5\nout 8\nout 13\nout 21\nout 34\n";

/// Runs the schedule of an accepted object.
fn run_schedule(alloc: Global, object: &Object, sink: &mut MemSink) -> Result<RunEnd, NoMemory>
    requires spellable { IsSpellable object.now }
    requires accepted { IsAccepted object.now }
{
    let scheduled = schedule(alloc, &Checked::of_accepted(object))?;
    let start = Clean::start(alloc, &Checked::of_accepted(&scheduled))?;
    let plan = Plan {
        strike: None,
        wild: &[],
    };
    Ok(run(start, plan, 3296, sink))
}

/// Compiles a source and runs the schedule of its object.
fn run_source(alloc: Global, text: &[u8], sink: &mut MemSink) -> Result<RunEnd, NoMemory> {
    match compile(alloc, text) {
        Ok(object) => run_schedule(alloc, &object, sink),
        Err(_) => Err(NoMemory),
    }
}

#[test]
fn the_schedule_of_a_source_writes_what_it_means(rt: HostRuntime) -> Result<(), Fail> {
    let mut sink = MemSink::new(rt.alloc(), 200)?;
    let end = run_source(rt.alloc(), FIB.as_bytes(), &mut sink)?;
    assert!(rt; matches!(end, RunEnd::Done));
    assert!(rt; sink.written() == NUMBERS.as_bytes());
    Ok(())
}
