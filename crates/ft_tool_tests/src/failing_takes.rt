//! Failing takes of the debugger's script.
use ft_edge::MemSource;
use ft_tests::{Row, check_script};
use std::test::Fail;

/// Fails unless the row holds when the take with this number fails. Take 1 would find that no bytes are left.
fn check_failing_take(rt: &impl AllocGlobal, take: u64, row: Row) -> Result<(), Fail> {
    let mut script = MemSource::new(rt.alloc(), b"step 1\n")?;
    script.fail_at(take)?;
    check_script(rt, row, &mut script)
}

#[test]
fn takes_of_the_script_that_fail(rt: HostRuntime) -> Result<(), Fail> {
    for (take, row) in [
        (0, ("debug A", "", 3)),
        (1, ("debug A", "", 3)),
        (2, ("debug A", "at 1 running\n", 0)),
        (0, ("run A", "out 5\n", 0)),
        (0, ("check A", "accepted\n", 0)),
    ] {
        check_failing_take(&rt, take, row)?;
    }
    Ok(())
}
