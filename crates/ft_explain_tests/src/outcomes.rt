//! Explanations of runs that did not simply succeed.
use crate::calls::check_said;
use ft_worked_objects::A;
use std::test::Fail;

/// Words for calls on the worked object, each with the explanation.
const WORDS: &[(&str, &str)] = &[
    ("run file", ""),
    ("run file --fault 4:r1:5", ""),
    (
        "run file --steps 11",
        "file: still running after 11 steps: raise `--steps`\n",
    ),
    (
        "run file --fault 4000:r1:6",
        "file: the fault struck nothing: the run had ended after 14 steps, before step 4000\n",
    ),
    (
        "run file --fault 2000000:r1:1",
        "file: the fault struck nothing: the run had ended after 14 steps, before step 2000000\n",
    ),
    (
        "run file --steps 3000000 --fault 2000000:r1:1",
        "file: the fault struck nothing: the run had ended after 14 steps, before step 2000000\n",
    ),
    (
        "run file --fault 4:qa3:6",
        "file: the fault struck nothing: at step 4 the queue has no entry 3\n",
    ),
    (
        "trial file --steps 3 --fault 4:r1:6",
        "file: the fault struck nothing: it comes at step 4, and the run is limited to 3 steps (`--steps`)\nfile: still running after 3 steps: raise `--steps`\n",
    ),
    (
        "run file --fault 4:r1:6",
        "file: detected at step 11: `st_B r32 r33`: r33 is 5, and the oldest store in the queue has the value 6\n",
    ),
    (
        "recover file --fault 4:r1:6",
        "file: detected at step 11: `st_B r32 r33`: r33 is 5, and the oldest store in the queue has the value 6\n",
    ),
    (
        "run file --fault 4:pcg:9",
        "file: detected at step 4: the green program counter is 9, but the blue one is 3\n",
    ),
];

#[test]
fn runs_are_explained(rt: HostRuntime) -> Result<(), Fail> {
    for (words, text) in WORDS {
        check_said(&rt, words, &[("file", A)], text)?;
    }
    Ok(())
}

#[test]
fn a_meaning_that_is_cut_is_explained(rt: HostRuntime) -> Result<(), Fail> {
    let source = b"cell out = 0; while (1) { out = 1; }";
    let text =
        "file: still running after 3 turns: raise `--turns`\nfile:1:22: note: this test is never 0, so the loop never ends\n cell out = 0; while (1) { out = 1; }\n                      ^\n";
    check_said(&rt, "mean file --turns 3", &[("file", source)], text)
}

#[test]
fn a_constant_index_beyond_its_array_is_noted(rt: HostRuntime) -> Result<(), Fail> {
    let source = b"cell a[4] = 0;\na[3] = 1;\na[5] = 2;\n";
    let text = "file:3:3: note: `a` has 4 cells: the index 5 selects cell 1\n a[5] = 2;\n   ^\n";
    check_said(&rt, "compile file", &[("file", source)], text)
}
