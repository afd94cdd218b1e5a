//! Sources with their outputs, and flows with their sizes.
use crate::flow_run::FlowRun;
use ft_lower::{Flow, Step3, lower};
use ft_scope::resolve;
use ft_syntax::parse;
use std::process::Abort;
use std::test::Fail;

/// A source, and its outputs, each as a cell's number and a word.
type Row = (&'static [u8], &'static [(u32, u64)]);

/// The Fibonacci program of the documents.
const FIBONACCI: &[u8] =
    b"cell out = 0; var a; var b; var t; var i; b = 1; while (i < 10) { out = a; t = a + b; a = b; b = t; i = i + 1; }";

/// The array program of the documents.
const ARRAY: &[u8] = b"cell a[3] = 0; var i; while (i < 4) { a[i] = i ^ 5; i = i + 1; }";

/// A source's flow, and the initial words of its cells.
fn lowered(rt: &(impl AllocGlobal + Abort), text: &[u8]) -> Result<(Flow, Vec<u64>), Fail> {
    let Ok(tree) = parse(rt.alloc(), text) else {
        panic!(rt; "a tree");
    };
    let Ok(prog) = resolve(rt.alloc(), tree) else {
        panic!(rt; "a program");
    };
    let Ok(flow) = lower(rt.alloc(), &prog) else {
        panic!(rt; "a flow");
    };
    Ok((flow, Vec::from_slice(rt.alloc(), &prog.inits)?))
}

/// How many instructions a step becomes.
fn size(step: Step3) -> usize {
    match step {
        Step3::Put { .. } | Step3::Copy { .. } | Step3::Op { .. } => 2,
        Step3::Load { .. } | Step3::Store { .. } | Step3::Exit { .. } | Step3::Go { .. } => 4,
        Step3::LoadAt { .. } | Step3::StoreAt { .. } => 4,
        Step3::Stop => 1,
    }
}

/// How many instructions a flow becomes.
fn flow_size(flow: &Flow) -> usize {
    let mut whole: usize = 0;
    for step in &flow.steps {
        whole = whole.wrapping_add(size(*step));
    }
    whole
}

/// How many blocks a flow has.
fn block_count(flow: &Flow) -> usize {
    let mut count: usize = 0;
    for step in &flow.steps {
        if matches!(step, Step3::Go { .. } | Step3::Stop) {
            count = count.wrapping_add(1);
        }
    }
    count
}

#[test]
fn sources_put_out_what_they_mean(rt: HostRuntime) -> Result<(), Fail> {
    let rows: &[Row] = &[
        (b"", &[]),
        (b"cell out = 0; out = 7;", &[(0, 7)]),
        (b"cell c = 0; c = 7; c = 7;", &[(0, 7), (0, 7)]),
        (
            b"cell a = 5; cell b = 3; b = a - b; a = b - 7;",
            &[(1, 2), (0, 18446744073709551611)],
        ),
        (
            b"cell a = 1; cell b = 2; cell d = 4; d = a + b * d; b = d; a = b == 9;",
            &[(2, 9), (1, 9), (0, 1)],
        ),
        (
            b"cell c = 0; var x; x = 1 - (2 - (3 - (4 - 5))); c = x;",
            &[(0, 3)],
        ),
        (
            b"cell c = 1; var x; x = 2 + 3 * 4; c = x; if (c == 14) { c = 1; } else { c = 2; } c = c + 10;",
            &[(0, 14), (0, 1), (0, 11)],
        ),
        (b"cell c = 9; if (0) { c = 1; } c = 2;", &[(0, 2)]),
        (
            b"cell c = 9; if (c < 5) { } else { while (c < 11) { c = c + 1; } } c = 0;",
            &[(0, 10), (0, 11), (0, 0)],
        ),
        (
            b"cell c = 0; var i; var j; while (i < 3) { j = 0; while (j < i) { c = i * 10 + j; j = j + 1; } i = i + 1; }",
            &[(0, 10), (0, 20), (0, 21)],
        ),
        (
            FIBONACCI,
            &[
                (0, 0),
                (0, 1),
                (0, 1),
                (0, 2),
                (0, 3),
                (0, 5),
                (0, 8),
                (0, 13),
                (0, 21),
                (0, 34),
            ],
        ),
    ];
    for row in rows {
        let (text, out) = *row;
        let (flow, cells) = lowered(&rt, text)?;
        let mut run = FlowRun::new(&rt, &cells)?;
        run.run(&flow, 412)?;
        assert!(&rt; run.done, "done");
        assert!(&rt; run.out.as_slice() == out, "outputs");
    }
    Ok(())
}

#[test]
fn sources_with_arrays_put_out_what_they_mean(rt: HostRuntime) -> Result<(), Fail> {
    let rows: &[Row] = &[
        (ARRAY, &[(0, 5), (1, 4), (2, 7), (0, 6)]),
        (
            b"cell a[2] = 1; a[0 - 1] = 7; a[0] = a[18446744073709551615] << 64;",
            &[(1, 7), (0, 0)],
        ),
        (
            b"cell p = 1; cell a[3] = 2; a[1] = 9; p = a[a[p - 1] + 2];",
            &[(2, 9), (0, 9)],
        ),
        (
            b"cell a[1024] = 3; a[1023] = a[2048] + 1; a[5] = a[1023] >> 2 | 8;",
            &[(1023, 4), (5, 9)],
        ),
        (
            b"cell a[1] = 6; cell b[1023] = 5; b[a[7]] = b[2] & 6; b[1022] = b[6 + 1023] ^ 1;",
            &[(7, 4), (1023, 5)],
        ),
        (
            b"cell c = 6; c = c << 64; c = 6 >> 64; c = c | 1 << 63; c = c >> 63;",
            &[(0, 0), (0, 0), (0, 9223372036854775808), (0, 1)],
        ),
    ];
    for row in rows {
        let (text, out) = *row;
        let (flow, cells) = lowered(&rt, text)?;
        let mut run = FlowRun::new(&rt, &cells)?;
        run.run(&flow, 152)?;
        assert!(&rt; run.done, "done");
        assert!(&rt; run.out.as_slice() == out, "outputs");
    }
    Ok(())
}

#[test]
fn the_array_flow_is_small(rt: HostRuntime) -> Result<(), Fail> {
    let (flow, _) = lowered(&rt, ARRAY)?;
    assert!(&rt; flow.vars == 1);
    assert!(&rt; flow.cells == 3);
    assert!(&rt; flow_size(&flow) <= 49);
    Ok(())
}

#[test]
fn an_endless_loop_puts_out_all_its_numbers(rt: HostRuntime) -> Result<(), Fail> {
    let (flow, cells) = lowered(&rt, b"cell out = 0; while (1) { out = out + 1; }")?;
    let mut run = FlowRun::new(&rt, &cells)?;
    run.run(&flow, 116)?;
    assert!(&rt; !run.done);
    let mut next: u64 = 1;
    for (cell, word) in &run.out {
        assert!(&rt; *cell == 0 && *word == next);
        next = next.wrapping_add(1);
    }
    assert!(&rt; next > 6);
    Ok(())
}

#[test]
fn the_fibonacci_flow_is_small(rt: HostRuntime) -> Result<(), Fail> {
    let (flow, _) = lowered(&rt, FIBONACCI)?;
    assert!(&rt; flow.vars == 4);
    assert!(&rt; flow.cells == 1);
    assert!(&rt; block_count(&flow) == 3);
    assert!(&rt; flow_size(&flow) <= 69);
    Ok(())
}

#[test]
fn the_empty_source_only_stops(rt: HostRuntime) -> Result<(), Fail> {
    let (flow, _) = lowered(&rt, b"")?;
    assert!(&rt; flow.steps.as_slice() == [Step3::Stop].as_slice());
    Ok(())
}
