//! Explanations of refused links, by status and line.
use crate::calls::check_told;
use ft_worked_objects::{A, A2};
use std::test::Fail;

/// A map of two modules.
const MAP: &str = "module m\nimport go 1\nmodule a\nexport go 0\n";

/// Maps, the line of a refusal, and its explanation if the modules do not exist.
const MAPS: &[(&str, &str, &str)] = &[
    (
        "import go 1\nmodule a\n",
        "link 1 1\n",
        "map:1:1: error: no `module` line precedes this `import`\n import go 1\n ^~~~~~~~~~~\n",
    ),
    (
        "module m\nimports go 1\n",
        "link 1 2\n",
        "map:2:1: error: unexpected `imports`; did you mean `import`?\n imports go 1\n ^~~~~~~~~~~~\n",
    ),
    ("", "link 1 1\n", "map: error: the file is empty\n"),
    (
        "module m\nexport go 0\nexport go 1\n",
        "link 2 3\n",
        "map:3:1: error: this name is already exported, or this block is already imported\n export go 1\n ^~~~~~~~~~~\n  line 2 exports this name\n",
    ),
    (
        "module m\nexport go 0\nimport go 0\n",
        "link 2 3\n",
        "map:3:1: error: this block is already exported or imported\n import go 0\n ^~~~~~~~~~~\n  line 2 names this block\n",
    ),
    (
        MAP,
        "link 3 0\n",
        "m: error: a cell's type has the base `code`, which no cell of a module may have\n",
    ),
    (
        MAP,
        "link 3 1\n",
        "a: error: its cells differ from those of the first module\n",
    ),
    (
        MAP,
        "link 4 1\n",
        "a: error: a register row's type has the base `code`, which no register row of a module may have\n",
    ),
    (
        MAP,
        "link 5 1 0 3\n",
        "a: error: block 0, instruction 3: it uses the address of a block in a way that the linker cannot follow\n",
    ),
    (
        MAP,
        "link 6 1\n",
        "a: error: with this module the linked object is too large: it has more parts of one kind than are allowed\n",
    ),
    (
        MAP,
        "link 7 4\n",
        "map:4:1: error: the module has no such block\n export go 0\n ^~~~~~~~~~~\n",
    ),
    (
        MAP,
        "link 8 2\n",
        "map:2:1: error: the imported block is not a stub: a stub is a single `halt`\n import go 1\n ^~~~~~~~~~~\n",
    ),
    (
        MAP,
        "link 9 2\n",
        "map:2:1: error: no line exports this name\n import go 1\n ^~~~~~~~~~~\n  exported names: `go`\n",
    ),
    (
        MAP,
        "link 10 2\n",
        "map:2:1: error: the imported block and the exported one do not have the same code type\n import go 1\n ^~~~~~~~~~~\n",
    ),
    (
        MAP,
        "link 11 65536\n",
        "map: error: the link map is too long: at most 65536 bytes are allowed\n",
    ),
];

/// Maps with an invalid line 2, each with its explanation.
const LINES: &[(&str, &str)] = &[
    (
        "module m\nexport go\n",
        "map:2:1: error: expected `export NAME B`: the number of the block is missing\n export go\n ^~~~~~~~~\n",
    ),
    (
        "module m\nexport go 01\n",
        "map:2:1: error: invalid block `01`: numbers have no leading zeros\n export go 01\n ^~~~~~~~~~~~\n",
    ),
    (
        "module m\nexport 2go 1\n",
        "map:2:1: error: expected `export NAME B`: a name is at most 32 letters, digits and `_`, and does not begin with a digit\n export 2go 1\n ^~~~~~~~~~~~\n",
    ),
    (
        "module m\nimport then -> 2\n",
        "map:2:13: error: unexpected `->`: expected `import NAME B`\n import then -> 2\n             ^~\n",
    ),
    (
        "module m\nexport go 1\r\n",
        "map:2:12: error: the line ends with a carriage return: save the file with Unix line endings\n export go 1?\n            ^\n",
    ),
    (
        "module m\n\n",
        "map:2:1: error: empty lines are not allowed in this file\n \n ^\n",
    ),
    (
        "module m\n# a\n",
        "map:2:1: error: comments are not allowed in this file\n # a\n ^\n",
    ),
    (
        "module m\nexport\tgo 1\n",
        "map:2:7: error: words are separated by one space, not by a tab\n export\tgo 1\n       ^\n",
    ),
    (
        "module m\nexport go  1\n",
        "map:2:11: error: words are separated by one space\n export go  1\n           ^\n",
    ),
    (
        "module m\nmodule \n",
        "map:2:7: error: the line ends with whitespace\n module \n       ^\n",
    ),
];

#[test]
fn lines_of_no_map_are_explained(rt: HostRuntime) -> Result<(), Fail> {
    for (map, text) in LINES {
        check_told(
            &rt,
            "link map",
            13,
            "link 1 2\n",
            &[("map", map.as_bytes())],
            text,
        )?;
    }
    Ok(())
}

#[test]
fn modules_are_found_and_what_could_be_meant(rt: HostRuntime) -> Result<(), Fail> {
    let map: &str = "module a\nmodule m\nexport go 3\n";
    let files: &[(&str, &[u8])] = &[("map", map.as_bytes()), ("a", A), ("m", A2)];
    let text =
        "m: error: block 0, instruction 3: its two operands do not have the same colour (premise 2)\n  add r33 r1 B 0\n  r1: G int\n";
    check_told(
        &rt,
        "link map",
        8,
        "check block 0 index 3 premise 2\n",
        files,
        text,
    )?;
    let text =
        "map:3:1: error: the module has no such block\n export go 3\n ^~~~~~~~~~~\n  blocks of m: 0 to 0\n";
    check_told(&rt, "link map", 13, "link 7 3\n", files, text)?;
    let text =
        "map:3:1: error: the imported block is not a stub: a stub is a single `halt`\n export go 3\n ^~~~~~~~~~~\n  stubs of m: none\n";
    check_told(&rt, "link map", 13, "link 8 3\n", files, text)?;
    let files: &[(&str, &[u8])] = &[("map", map.as_bytes()), ("a", A), ("m", b"halt\n")];
    let text =
        "m: error: this is an assembly text, not an object: `talft asm FILE >OBJECT` makes an object\n";
    check_told(&rt, "link map", 7, "object 2 5\n", files, text)
}

/// Statuses and lines caused by a module's object, with the explanation of the map.
const MODULES: &[(u8, &str, &str)] = &[
    (
        7,
        "object 4 67\n",
        "map: error: a module is not an object: padding, or a field that the record does not use, is not zero, at byte 67\n",
    ),
    (
        8,
        "check block 0 index 3 premise 2\n",
        "map: error: a module is not accepted; run `talft check` on each to find it\n",
    ),
    (
        8,
        "check cell 2\n",
        "map: error: a module is not accepted; run `talft check` on each to find it\n",
    ),
    (
        3,
        "",
        "map:1:8: error: `m`: cannot be read\n module m\n        ^\n",
    ),
];

#[test]
fn refused_links_are_explained(rt: HostRuntime) -> Result<(), Fail> {
    for (map, line, text) in MAPS {
        check_told(&rt, "link map", 13, line, &[("map", map.as_bytes())], text)?;
    }
    Ok(())
}

#[test]
fn refused_modules_are_explained(rt: HostRuntime) -> Result<(), Fail> {
    for (status, line, text) in MODULES {
        check_told(
            &rt,
            "link map",
            *status,
            line,
            &[("map", MAP.as_bytes())],
            text,
        )?;
    }
    Ok(())
}

#[test]
fn an_instruction_that_is_not_linked_is_shown(rt: HostRuntime) -> Result<(), Fail> {
    let files: &[(&str, &[u8])] = &[("map", MAP.as_bytes()), ("m", A2)];
    let text =
        "m: error: block 0, instruction 3: it reads the address of a block but does not jump or branch to that block\n  add r33 r1 B 0\n";
    check_told(&rt, "link map", 13, "link 5 0 0 3\n", files, text)?;
    let text = "map: error: cannot be read\n";
    check_told(&rt, "link map", 3, "", &[], text)
}
