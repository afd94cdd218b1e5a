//! Commands whose loads or puts fail.
use ft_edge::{MemShelf, MemSink};
use ft_tests::{Row, check_row, worked_objects};
use std::test::Fail;

/// Texts besides the worked objects.
const TEXTS: &[(&str, &[u8])] = &[
    ("list", b"4:r1:6\n10:r1:6\n0:pcg:3\n9:qv0:6\n"),
    ("map", b"module A\nmodule Q\n"),
    ("numbers", b"cell out = 0; out = 1; out = 2;"),
];

/// The worked objects and the texts.
fn objects_and_texts(rt: &impl AllocGlobal) -> Result<MemShelf, Fail> {
    let mut shelf = worked_objects(rt)?;
    for (name, text) in TEXTS {
        shelf.add(name, text)?;
    }
    Ok(shelf)
}

/// A campaign of four faults.
const CAMPAIGN: &str = "campaign A --steps 14 --faults list";

/// The number of the load that fails, and the row.
const FAILING_LOADS: &[(u64, Row)] = &[
    (0, ("trial A", "", 3)),
    (1, ("trial A", "out 5\n", 0)),
    (0, ("check A", "", 3)),
    (1, ("check A", "accepted\n", 0)),
    (0, ("run A", "", 3)),
    (1, ("run A", "out 5\n", 0)),
    (0, ("recover A", "", 3)),
    (0, ("debug A", "", 3)),
    (0, ("compile numbers", "", 3)),
    (0, ("exec numbers", "", 3)),
    (0, ("mean numbers", "", 3)),
    (0, ("asm numbers", "", 3)),
    (0, ("dis A", "", 3)),
    (0, ("schedule A", "", 3)),
    (0, ("upgrade A", "", 3)),
    (0, ("link map", "", 3)),
    (1, ("link map", "", 3)),
    (2, ("link map", "", 3)),
    (0, ("check", "usage\n", 2)),
    (0, (CAMPAIGN, "", 3)),
    (1, (CAMPAIGN, "", 3)),
    (
        1,
        (
            "campaign A2 --faults list",
            "check block 0 index 3 premise 2\n",
            8,
        ),
    ),
    (1, ("survey A --faults list", "", 3)),
    (1, ("campaign A --faults A", "list 1 1\n", 11)),
    (1, ("survey A --faults A", "list 1 1\n", 11)),
];

#[test]
fn loads_that_fail(rt: HostRuntime) -> Result<(), Fail> {
    for (load, row) in FAILING_LOADS {
        let mut shelf = objects_and_texts(&rt)?;
        shelf.fail_at(*load)?;
        let mut sink = MemSink::new(rt.alloc(), 100)?;
        check_row(&rt, *row, &mut shelf, &mut sink)?;
    }
    Ok(())
}

/// The number of the put that fails, and the row.
const FAILING_PUTS: &[(u64, Row)] = &[
    (0, ("trial A", "", 4)),
    (1, ("trial Q", "out 5\n", 4)),
    (2, ("trial Q", "out 5\nout 6\n", 4)),
    (0, ("run", "", 4)),
    (0, ("run A", "", 4)),
    (0, ("check A", "", 4)),
    (0, ("check A2", "", 4)),
    (0, ("upgrade A", "", 4)),
    (1, ("exec numbers", "out 1\n", 4)),
    (0, ("recover Q --fault 20:r34:7", "", 4)),
    (1, ("recover Q --fault 20:r34:7", "out 5\n", 4)),
    (
        3,
        ("recover Q --fault 20:r34:7", "out 5\nout 6\nout 6\n", 4),
    ),
    (1, ("check A", "accepted\n", 0)),
    (0, ("trial missing", "", 3)),
    (0, (CAMPAIGN, "", 4)),
    (1, (CAMPAIGN, "4:r1:6 detected 11\n", 4)),
    (2, (CAMPAIGN, "4:r1:6 detected 11\n10:r1:6 masked\n", 4)),
    (
        3,
        (
            CAMPAIGN,
            "4:r1:6 detected 11\n10:r1:6 masked\n0:pcg:3 detected 0\n",
            4,
        ),
    ),
    (
        4,
        (
            CAMPAIGN,
            "4:r1:6 detected 11\n10:r1:6 masked\n0:pcg:3 detected 0\n9:qv0:6 idle\n",
            4,
        ),
    ),
    (0, ("survey A --steps 14 --faults list", "", 4)),
    (
        1,
        ("survey A2 --steps 14 --faults list", "4:r1:6 corrupt\n", 4),
    ),
    (0, ("campaign A2 --faults list", "", 4)),
    (0, ("campaign A --steps 1000000 --faults A", "", 4)),
    (0, ("demo 3", "", 4)),
    (1, ("demo 3", "outputs 3 last 18\n", 4)),
];

#[test]
fn puts_that_fail(rt: HostRuntime) -> Result<(), Fail> {
    for (put, row) in FAILING_PUTS {
        let mut shelf = objects_and_texts(&rt)?;
        let mut sink = MemSink::new(rt.alloc(), 300)?;
        sink.fail_at(*put)?;
        check_row(&rt, *row, &mut shelf, &mut sink)?;
    }
    Ok(())
}
