//! Flows that are compiled, checked and run.
ghost use Rattle.ft_types.specs.Spellable.{IsSpellable};

use ft_checker::check_uncounted;
use ft_edge::MemSink;
use ft_flow::{FlowError, Rule, compile_text};
use ft_isa::Plan;
use ft_machine::RunEnd;
use ft_runs::{Clean, run};
use ft_types::Object;
use std::alloc::Global;
use std::test::Fail;

/// The larger of two cells: a branch. As `examples/flows/larger.flow`.
const LARGER: &str = "flow 1
vars 0
cell x = 7
cell y = 12
cell out = 0
entry:
  p0 = load x
  p1 = load y
  p2 = ltu p0 p1
  if p2 == 0 goto first
  store p1 out
  goto end
first:
  p0 = load x
  store p0 out
  goto end
end:
  stop
";

/// The running sums of an array: a loop with an array. As `examples/flows/sums.flow`.
const SUMS: &str = "flow 1
vars 2
cell out = 0
array a = 3 1 4 1 5
start:
  p0 = 5
  p1 = 0
  goto head
head:
  if p0 == 0 goto done
  p2 = 5
  p3 = sub p2 p0  # the place, counted up
  p4 = load a p3
  p1 = add p1 p4
  store p1 out
  store p1 a p3
  p5 = 1
  p0 = sub p0 p5
  goto head
done:
  stop
";

/// The products of 0 to 2 and 0 to 3: a nested loop. As `examples/flows/table.flow`.
const TABLE: &str = "flow 1
vars 3
cell product = 0
cell rows = 3
entry:
  p0 = 0
  p1 = 0
  p2 = load rows
  goto outer
outer:
  p3 = ltu p0 p2
  if p3 == 0 goto end
  p1 = 0
  goto inner
inner:
  p3 = 4
  p3 = ltu p1 p3
  if p3 == 0 goto next
  p4 = mul p0 p1
  store p4 product
  p5 = 1
  p1 = add p1 p5
  goto inner
next:
  p5 = 1
  p0 = add p0 p5
  goto outer
end:
  stop
";

/// Flows, each with the lines that its run writes, worked out by hand.
const FLOWS: &[(&str, &str)] = &[
    (LARGER, "out 12\n"),
    (
        SUMS,
        "out 3\na[0] 3\nout 4\na[1] 4\nout 8\na[2] 8\nout 9\na[3] 9\nout 14\na[4] 14\n",
    ),
    (
        TABLE,
        "product 0\nproduct 0\nproduct 0\nproduct 0\nproduct 0\nproduct 1\nproduct 2\nproduct 3\nproduct 0\nproduct 2\nproduct 4\nproduct 6\n",
    ),
];

/// The most steps of a run.
const STEPS: u64 = 10_000;

/// Checks an object and runs it.
fn run_checked(alloc: Global, object: &Object, sink: &mut MemSink) -> Result<RunEnd, Fail>
    requires { IsSpellable object.now }
{
    let checked = check_uncounted(alloc, object)?;
    let start = Clean::start(alloc, &checked)?;
    let plan = Plan {
        strike: None,
        wild: &[],
    };
    Ok(run(start, plan, STEPS, sink))
}

/// Whether the run of a flow is done and writes these lines.
fn writes(alloc: Global, text: &[u8], lines: &[u8]) -> Result<bool, Fail> {
    let Ok(object) = compile_text(alloc, text) else {
        return Ok(false);
    };
    let mut sink = MemSink::new(alloc, lines.len())?;
    let end = run_checked(alloc, &object, &mut sink)?;
    Ok(matches!(end, RunEnd::Done) && sink.written() == lines)
}

#[test]
fn flows_write_what_their_steps_store(rt: HostRuntime) -> Result<(), Fail> {
    for (text, lines) in FLOWS {
        assert!(rt; writes(rt.alloc(), text.as_bytes(), lines.as_bytes())?);
    }
    Ok(())
}

/// Texts that are refused, each with the refusal.
const REFUSED: &[(&str, FlowError)] = &[
    ("flow 2\n", FlowError::Form { line: 1 }),
    ("flow 1\nvars 32\n", FlowError::Form { line: 2 }),
    ("flow 1\nvars 0\n\n", FlowError::Missing { line: 4 }),
    ("flow 1\nvars 0\ncell 1 = 2\n", FlowError::Name { line: 3 }),
    (
        "flow 1\nvars 0\na:\n  stop\n  stop\n",
        FlowError::Stray { line: 5 },
    ),
    (
        "flow 1\nvars 0\na:\nb:\n  stop\n",
        FlowError::Falls { line: 4 },
    ),
    (
        "flow 1\nvars 0\na:\n  p0 = p1\n  stop\n",
        FlowError::Step {
            line: 4,
            rule: Rule::Unset,
        },
    ),
    (
        "flow 1\nvars 0\na:\n  goto a\n",
        FlowError::Step {
            line: 4,
            rule: Rule::Target,
        },
    ),
    (
        "flow 1\nvars 1\na:\n  goto b\nb:\n  stop\n",
        FlowError::Step {
            line: 4,
            rule: Rule::Variable,
        },
    ),
];

/// Whether a text is refused with this refusal.
fn is_refused(alloc: Global, text: &[u8], refusal: FlowError) -> bool {
    match compile_text(alloc, text) {
        Ok(_object) => false,
        Err(error) => error == refusal,
    }
}

#[test]
fn flows_are_refused_at_their_first_wrong_line(rt: HostRuntime) {
    for (text, refusal) in REFUSED {
        assert!(rt; is_refused(rt.alloc(), text.as_bytes(), *refusal));
    }
}
