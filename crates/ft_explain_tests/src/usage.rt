//! Explanations of words that are not a command.
use crate::calls::check_said;
use std::test::Fail;

/// Words, with their explanation.
const WORDS: &[(&str, &str)] = &[
    (
        "check",
        "talft: error: missing OBJECT after `check`; for standard input write `/dev/stdin`\nusage: talft check OBJECT\n  report whether the typing rules accept an object\n",
    ),
    (
        "check a --steps 3",
        "talft: error: unknown option `--steps` for `check`: it is an option of `run`, `recover`, `exec`, `trial`, `campaign` and `survey`; `check` takes no options\nusage: talft check OBJECT\n",
    ),
    (
        "check a b",
        "talft: error: unexpected argument `b` after OBJECT: give only one OBJECT\nusage: talft check OBJECT\n",
    ),
    (
        "exec a --steps 3 --steps 4",
        "talft: error: `--steps` is given twice\nusage: talft exec SOURCE [--steps N]\n",
    ),
    (
        "exec a --steps",
        "talft: error: missing N after `--steps`\nusage: talft exec SOURCE [--steps N]\n",
    ),
    (
        "run a --fault --steps 3",
        "talft: error: missing STEP:SITE:WORD after `--fault`\nusage: talft run OBJECT [--steps N] [--fault STEP:SITE:WORD] [--wild LIST]\n",
    ),
    (
        "exec a --steps=3",
        "talft: error: `--steps=3` is one word: write `--steps N`\nusage: talft exec SOURCE [--steps N]\n",
    ),
    (
        "exec --steps 3 a",
        "talft: error: missing SOURCE: it comes before options such as `--steps`\nusage: talft exec SOURCE [--steps N]\n",
    ),
    (
        "mean a --turns 1000000001",
        "talft: error: invalid number `1000000001` for `--turns`: expected 0 to 1000000000; the largest number here is 1000000000\nusage: talft mean SOURCE [--turns N]\n",
    ),
    (
        "run a --steps 5 --fault 1:r0",
        "talft: error: invalid fault `1:r0`: expected STEP:SITE:WORD; the word is missing\nusage: talft run OBJECT [--steps N] [--fault STEP:SITE:WORD] [--wild LIST]\n",
    ),
    (
        "trial a --fault 4:r64:6",
        "talft: error: invalid fault `4:r64:6`: expected STEP:SITE:WORD; invalid site `r64`: a site is r0 to r63, d, pcg, pcb, qa0 to qa7 or qv0 to qv7\nusage: talft trial OBJECT [--steps N] [--fault STEP:SITE:WORD] [--wild LIST]\n",
    ),
    (
        "trial a --fault 4:r1:0x6",
        "talft: error: invalid fault `4:r1:0x6`: expected STEP:SITE:WORD; invalid word `0x6`: numbers are decimal\nusage: talft trial OBJECT [--steps N] [--fault STEP:SITE:WORD] [--wild LIST]\n",
    ),
    (
        "debug a --wild go",
        "talft: error: invalid list `go` for `--wild`: expected at most 4096 answers separated by commas, each a number or `stop`\nusage: talft debug OBJECT [--wild LIST] <SCRIPT\n",
    ),
    (
        "survey a --steps 5",
        "talft: error: missing `--faults FILE`\nusage: talft survey OBJECT --faults FILE [--steps N] [--wild LIST]\n",
    ),
    (
        "link map --steps 3",
        "talft: error: unknown option `--steps` for `link`: it is an option of `run`, `recover`, `exec`, `trial`, `campaign` and `survey`; `link` takes no options\nusage: talft link MAP\n",
    ),
    (
        "demo 10922",
        "talft: error: invalid N `10922`: expected a number from 1 to 10921\nusage: talft demo N\n",
    ),
    (
        "run a --fautl 4:r1:6",
        "talft: error: unknown option `--fautl` for `run`; did you mean `--fault`?\nusage: talft run OBJECT [--steps N] [--fault STEP:SITE:WORD] [--wild LIST]\n",
    ),
    (
        "exec a --steps 05",
        "talft: error: invalid number `05` for `--steps`: expected 0 to 1000000000; numbers have no leading zeros\nusage: talft exec SOURCE [--steps N]\n",
    ),
    (
        "exec a -h",
        "talft 0.9.0\nusage: talft exec SOURCE [--steps N]\n  compile a source and run its object\n\noptions:\n  --steps N                 run at most N steps: 0 to 1000000000, for campaign and survey 0 to 1000000 (default 1000000)\n\nexample:\n  talft exec fibonacci.src --steps 5000\n\nmore: `man talft`\n",
    ),
    (
        "dis --help",
        "talft 0.9.0\nusage: talft dis OBJECT\n  write the assembly text of an object\n\nexample:\n  talft dis five.obj\n\nmore: `man talft`\n",
    ),
    (
        "check --steps",
        "talft: error: missing OBJECT: it comes before options such as `--steps`\nusage: talft check OBJECT\n",
    ),
    ("check ", "talft: error: the name of the file is empty\n"),
    (
        "check a aaaaaaaaaabbbbbbbbbbccccccccccddddddddddeeeee",
        "talft: error: unexpected argument `aaaaaaaaaabbbbbbbbbbccccccccccdddddddddd..` after OBJECT: give only one OBJECT\nusage: talft check OBJECT\n",
    ),
    ("--version", "talft 0.9.0\n"),
    (
        "run a \u{2013}fault 4:r1:6",
        "talft: error: `\u{2013}fault` begins with a typographic dash: write `--fault`\nusage: talft run OBJECT [--steps N] [--fault STEP:SITE:WORD] [--wild LIST]\n",
    ),
    (
        "run a \u{2014}steps=5",
        "talft: error: `\u{2014}steps=5` begins with a typographic dash: write `--steps`\nusage: talft run OBJECT [--steps N] [--fault STEP:SITE:WORD] [--wild LIST]\n",
    ),
    (
        "run \u{2212}\u{2212}fault 4:r1:6",
        "talft: error: `\u{2212}\u{2212}fault` begins with a typographic dash: write `--fault`\nusage: talft run OBJECT [--steps N] [--fault STEP:SITE:WORD] [--wild LIST]\n",
    ),
    (
        "run -\u{2011}wild",
        "talft: error: `-\u{2011}wild` begins with a typographic dash: write `--wild`\nusage: talft run OBJECT [--steps N] [--fault STEP:SITE:WORD] [--wild LIST]\n",
    ),
    (
        "check \u{2013}h",
        "talft: error: `\u{2013}h` begins with a typographic dash: write `-h`\nusage: talft check OBJECT\n",
    ),
    (
        "\u{2014}help",
        "talft: error: `\u{2014}help` begins with a typographic dash: write `--help`\n",
    ),
    ("check \u{2013}a", "\u{2013}a: error: cannot be read\n"),
    (
        "run a --steps \u{2212}5",
        "talft: error: invalid number `\u{2212}5` for `--steps`: expected 0 to 1000000000; numbers have no sign\nusage: talft run OBJECT [--steps N] [--fault STEP:SITE:WORD] [--wild LIST]\n",
    ),
    (
        "help exec",
        "talft 0.9.0\nusage: talft exec SOURCE [--steps N]\n  compile a source and run its object\n\noptions:\n  --steps N                 run at most N steps: 0 to 1000000000, for campaign and survey 0 to 1000000 (default 1000000)\n\nexample:\n  talft exec fibonacci.src --steps 5000\n\nmore: `man talft`\n",
    ),
    (
        "help dis",
        "talft 0.9.0\nusage: talft dis OBJECT\n  write the assembly text of an object\n\nexample:\n  talft dis five.obj\n\nmore: `man talft`\n",
    ),
];

#[test]
fn words_that_are_no_command_are_explained(rt: HostRuntime) -> Result<(), Fail> {
    for (words, text) in WORDS {
        check_said(&rt, words, &[], text)?;
    }
    Ok(())
}
