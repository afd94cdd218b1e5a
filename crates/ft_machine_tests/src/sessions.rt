//! Sessions, and what they write.
use crate::scripts::{BREAKS, HALT};
use ft_debug::{DebugEnd, session};
use ft_edge::MemSink;
use ft_isa::Wild;
use ft_object::decode;
use ft_worked_objects::{A, J, L, LOOP};
use std::process::Abort;
use std::test::Fail;

/// A script, and the text that its session writes.
type Row = (&'static str, &'static str);

/// How a session over an object's bytes ends.
fn run(
    rt: &(impl AllocGlobal + Abort),
    bytes: &[u8],
    wild: &[Wild],
    script: &str,
    sink: &mut MemSink,
) -> Result<DebugEnd, Fail> {
    let object = decode(rt.alloc(), bytes)?;
    let script = script.as_bytes();
    assert!(rt; script.len() <= 1_048_576);
    Ok(session(rt.alloc(), &object, wild, script, sink))
}

fn check_rows(
    rt: &(impl AllocGlobal + Abort),
    bytes: &[u8],
    wild: &[Wild],
    rows: &[Row],
) -> Result<(), Fail> {
    for row in rows {
        let (script, text) = *row;
        let mut sink = MemSink::new(rt.alloc(), 4_096)?;
        let end = run(rt, bytes, wild, script, &mut sink)?;
        assert_eq!(rt; end, DebugEnd::Ended, "end of {script}");
        assert_eq!(rt; sink.written(), text.as_bytes(), "text of {script}");
    }
    Ok(())
}

#[test]
fn steps_strikes_and_goes_back(rt: HostRuntime) -> Result<(), Fail> {
    check_rows(
        &rt,
        A,
        &[],
        &[
            (
                "step 12\ncell out\nback 2\ncell out\nback 4097\nhop\nwhere",
                "out 5\nat 12 running\nout 5\nat 10 running\nout 0\nno history\nbad command\nat 10 running pcg 6 pcb 6 block 0 index 5\n",
            ),
            (
                "step 4\nzap r1 6\nstep 8\nback 8\nreg r1\n",
                "at 4 running\nzapped\nat 12 detected\nat 4 running\nr1 G 6\n",
            ),
            (
                "break 0 5\ngo 100\nback 11\n",
                "break set\nat 10 running\nno history\n",
            ),
            (
                "step 14\nstep 5\ngo 5\nzap d 1\nback 1\nwhere\n",
                "out 5\nat 14 done\nat 14 done\nat 14 done\nnothing there\nat 13 running\nat 13 running pcg 7 pcb 7 block 0 index 6\n",
            ),
            (
                "break 0 0\nbreak 0 1\ngo 1000000\ngo 10\nback 12\ngo 3\n",
                "break set\nbreak set\nat 2 running\nout 5\nat 12 running\nat 0 running\nat 2 running\n",
            ),
            (
                "step 10\nqueue\nzap qv0 6\nqueue\nzap qa1 1\nback 1\nqueue\n",
                "at 10 running\n1048576 5\nzapped\n1048576 6\nnothing there\nat 9 running\nempty\n",
            ),
            (
                "step 6\nreg r32\nreg r2\nzap pcb 9\nreg pcb\nreg pcg\nreg d\nwhere\nstep 0\nstep 1\nback 0\nback 1\nback 1\nstep 1\nreg pcb\n",
                "at 6 running\nr32 B 1048576\nr2 G 0\nzapped\npcb B 9\npcg G 4\nd G 0\nat 6 running pcg 4 pcb 9\nat 6 running\nat 7 detected\nat 7 detected\nat 6 running\nat 5 running\nat 6 running\npcb B 4\n",
            ),
        ],
    )
}

#[test]
fn refuses_other_lines(rt: HostRuntime) -> Result<(), Fail> {
    check_rows(
        &rt,
        A,
        &[],
        &[
            ("", ""),
            ("\n", "bad command\n"),
            (
                "step\nstep 1000001\nstep 01\nstep 1 \n step 1\nStep 1\nreg r64\nreg qa0\nreg\nzap qa8 1\nzap r1\nzap r1 1 1\nzap r1 18446744073709551616\nzap r1 18446744073709551615\nreg r1\ncell \ncell a b\ncell nope\n\nbreak 0\nback 1 1\ngo -1\nbreak 0 7\nbreak 1 0\nbreak 0 18446744073709551615\nwhere",
                "bad command\nbad command\nbad command\nbad command\nbad command\nbad command\nbad command\nbad command\nbad command\nbad command\nbad command\nbad command\nbad command\nzapped\nr1 G 18446744073709551615\nbad command\nbad command\nno cell\nbad command\nbad command\nbad command\nbad command\nno place\nno place\nno place\nat 0 running pcg 1 pcb 1 block 0 index 0\n",
            ),
        ],
    )
}

#[test]
fn gives_wild_answers_again_after_steps_back(rt: HostRuntime) -> Result<(), Fail> {
    check_rows(
        &rt,
        L,
        &[Wild::Word(99), Wild::Word(5)],
        &[
            (
                "step 2\nzap r0 7\nstep 2\nreg r1\nback 2\nreg r0\nstep 2\nreg r1\nstep 100\nqueue\nwhere\nzap r1 1\n",
                "at 2 running\nzapped\nat 4 running\nr1 G 99\nat 2 running\nr0 G 7\nat 4 running\nr1 G 99\nat 14 detected\n1048576 99\nat 14 detected pcg 7 pcb 7 block 0 index 6\nnothing there\n",
            ),
            (
                "step 2\nzap r0 7\nstep 2\nback 3\nstep 1\nreg r0\nstep 2\nreg r1\n",
                "at 2 running\nzapped\nat 4 running\nat 1 running\nat 2 running\nr0 G 1048576\nat 4 running\nr1 G 5\n",
            ),
        ],
    )
}

#[test]
fn tells_blocks_and_their_instructions(rt: HostRuntime) -> Result<(), Fail> {
    check_rows(
        &rt,
        J,
        &[],
        &[(
            "break 1 2\ngo 100\nwhere\nstep 100\nbreak 0 6\nbreak 1 4\nbreak 1 5\nwhere\n",
            "break set\nat 16 running\nat 16 running pcg 9 pcb 9 block 1 index 2\nout 5\nat 22 done\nno place\nbreak set\nno place\nat 22 done pcg 11 pcb 11 block 1 index 4\n",
        )],
    )
}

#[test]
fn goes_back_over_4096_steps(rt: HostRuntime) -> Result<(), Fail> {
    check_rows(
        &rt,
        LOOP,
        &[],
        &[(
            "step 5000\nzap r9 7\nback 4097\nback 1\nreg r9\nstep 1\nreg r9\nback 4096\nwhere\nback 1\nreg d\nstep 6\nreg d\nwhere\nback 7\nback 6\nwhere\n",
            "at 5000 running\nzapped\nno history\nat 4999 running\nr9 G 0\nat 5000 running\nr9 G 0\nat 904 running\nat 904 running pcg 1 pcb 1 block 0 index 0\nno history\nd G 0\nat 910 running\nd G 1\nat 910 running pcg 4 pcb 4 block 0 index 3\nno history\nat 904 running\nat 904 running pcg 1 pcb 1 block 0 index 0\n",
        )],
    )
}

#[test]
fn holds_64_break_places(rt: HostRuntime) -> Result<(), Fail> {
    let mut bytes = Vec::from_slice(rt.alloc(), A)?;
    bytes.truncate(216);
    if bytes.len() > 35 {
        bytes[35] = 67;
    }
    for _ in 0..60 {
        bytes.extend_from_slice(HALT)?;
    }
    bytes.extend_from_slice(b"out")?;
    let mut sink = MemSink::new(rt.alloc(), 4_096)?;
    let end = run(&rt, bytes.as_slice(), &[], BREAKS, &mut sink)?;
    assert_eq!(&rt; end, DebugEnd::Ended);
    let written = sink.written();
    assert_eq!(&rt; written.len(), 65 * 10 + 16);
    assert!(&rt; written.ends_with(b"break set\ntoo many breaks\nbreak set\n"));
    Ok(())
}

#[test]
fn puts_nothing_after_a_put_that_failed(rt: HostRuntime) -> Result<(), Fail> {
    let mut sink = MemSink::new(rt.alloc(), 4_096)?;
    sink.fail_at(1)?;
    let end = run(&rt, A, &[], "step 12\nwhere\n", &mut sink)?;
    assert_eq!(&rt; end, DebugEnd::WriteFault);
    assert_eq!(&rt; sink.written(), b"out 5\n".as_slice());
    Ok(())
}
