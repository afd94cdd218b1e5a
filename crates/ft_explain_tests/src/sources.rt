//! Explanations of refused sources.
use crate::calls::check_said;
use ft_tests::{declared, repeated};
use std::test::Fail;

/// Sources, each with its explanation.
const SOURCES: &[(&str, &str)] = &[
    (
        "x = 1 % 2;",
        "file:1:7: error: unexpected character `%`: there is no division\n x = 1 % 2;\n       ^\n",
    ),
    (
        "var abcdefghijklmnopqrstuvwxyzabcdefg;",
        "file:1:37: error: a name has at most 32 bytes\n var abcdefghijklmnopqrstuvwxyzabcdefg;\n                                     ^\n",
    ),
    (
        "cell c = 18446744073709551616;",
        "file:1:10: error: `18446744073709551616` is too large: the largest number is 18446744073709551615 (2^64 - 1)\n cell c = 18446744073709551616;\n          ^~~~~~~~~~~~~~~~~~~~\n",
    ),
    (
        "cell out = 0; out = 7",
        "file:1:22: error: expected `;` after `7`\n cell out = 0; out = 7\n                      ^\n",
    ),
    (
        "cell out = 0;\nout = 7 # no more\n\n",
        "file:2:8: error: expected `;` after `7`\n out = 7 # no more\n        ^\n",
    ),
    (
        "cell out = 0 out = 7;",
        "file:1:13: error: expected `;` after `0`\n cell out = 0 out = 7;\n             ^\n",
    ),
    (
        "cell a = 0;\na = 1\nif (a == (1) { a = 2; }",
        "file:2:6: error: expected `;` after `1`\n a = 1\n      ^\n",
    ),
    (
        "cell a = 0; if (a == (1) { a = 2; }",
        "file:1:25: error: expected `)` after `)`\n cell a = 0; if (a == (1) { a = 2; }\n                         ^\n",
    ),
    (
        "cell a = 0; while (1) a = 2;",
        "file:1:22: error: expected `{` after `)`\n cell a = 0; while (1) a = 2;\n                      ^\n",
    ),
    (
        "cell a = 0; while 1 { a = 2; }",
        "file:1:18: error: expected `(` after `while`\n cell a = 0; while 1 { a = 2; }\n                  ^\n",
    ),
    (
        "cell a = 0; if (1) { a = 2;",
        "file:1:28: error: expected `}` after `;`\n cell a = 0; if (1) { a = 2;\n                            ^\nfile:1:20: note: to match this `{`\n cell a = 0; if (1) { a = 2;\n                    ^\n",
    ),
    (
        "cell a = 0; if (1) { } else if (2) { }",
        "file:1:29: error: unexpected `if`: write `else { if (..) { .. } }`\n cell a = 0; if (1) { } else if (2) { }\n                             ^~\n",
    ),
    (
        "var a = 3;",
        "file:1:7: error: unexpected `=`: assign a variable in a statement: `var a; a = 3;`\n var a = 3;\n       ^\n",
    ),
    (
        "var a; a++;",
        "file:1:9: error: unexpected `+`: write the assignment in full, as in `a = a + 1;`\n var a; a++;\n         ^\n",
    ),
    (
        "int a;",
        "file:1:5: error: unexpected `a`: a declaration is `var a;` or `cell a = 0;`, without a type\n int a;\n     ^\n",
    ),
    (
        "cell a = -1;",
        "file:1:10: error: unexpected `-`: numbers have no sign: -1 is 18446744073709551615 (2^64 - 1)\n cell a = -1;\n          ^\n",
    ),
    (
        "cell a = 0x10;",
        "file:1:11: error: unexpected `x10`: numbers are decimal\n cell a = 0x10;\n           ^~~\n",
    ),
    (
        "var a; a = 1 <= 2;",
        "file:1:15: error: unexpected `=`: write `(b < a) == 0` for `a <= b`\n var a; a = 1 <= 2;\n               ^\n",
    ),
    (
        "var a; a = 1 != 2;",
        "file:1:14: error: unexpected character `!`: write `(a == b) == 0` for `a != b`\n var a; a = 1 != 2;\n              ^\n",
    ),
    (
        "// a",
        "file:1:1: error: unexpected character `/`: comments begin with `#`, and there is no division\n // a\n ^\n",
    ),
    (
        "TALFT",
        "file: error: this is an object, not a source: `talft run FILE` runs it\n",
    ),
    (
        "var x; cell x = 1;",
        "file:1:13: error: `x` is declared twice\n var x; cell x = 1;\n             ^\nfile:1:5: note: the first declaration is here\n var x; cell x = 1;\n     ^\n",
    ),
    (
        "cell out = 0;\n\twhile (1) {\tout = total; }\n",
        "file:2:20: error: `total` is not declared\n \twhile (1) {\tout = total; }\n \t           \t      ^~~~~\n",
    ),
    (
        "cell a[2] = 1; a = 3;",
        "file:1:16: error: `a` is an array and needs an index, as in `a[0]`\n cell a[2] = 1; a = 3;\n                ^\n",
    ),
    (
        "cell a = 1; a [0] = 3;",
        "file:1:13: error: `a` is not an array and takes no index\n cell a = 1; a [0] = 3;\n             ^\n",
    ),
    (
        "cell a[0] = 1;",
        "file:1:8: error: invalid length `0`: an array has 1 to 1024 cells\n cell a[0] = 1;\n        ^\n",
    ),
    (
        "cell out = 0; \x1b[2J = 1;",
        "file:1:15: error: unexpected character `?`\n cell out = 0; ?[2J = 1;\n               ^\n",
    ),
];

/// Sources with habits from other languages, each with its explanation.
const HABITS: &[(&str, &str)] = &[
    (
        "cell a[4];",
        "file:1:10: error: unexpected `;`: a cell needs an initial value, as in `cell a = 0;` or `cell a[4] = 0;`\n cell a[4];\n          ^\n",
    ),
    (
        "cell out = 0; while (out = 1) { }",
        "file:1:26: error: unexpected `=`: write `==` to compare\n cell out = 0; while (out = 1) { }\n                          ^\n",
    ),
    (
        "cell a = 0; a = 1; var b;",
        "file:1:20: error: unexpected `var`: declarations come before the first statement\n cell a = 0; a = 1; var b;\n                    ^~~\n",
    ),
    (
        "cell a = 0; }",
        "file:1:13: error: unexpected `}`: no matching `{`\n cell a = 0; }\n             ^\n",
    ),
    (
        "cell a = 1.5;",
        "file:1:11: error: unexpected character `.`: numbers are integers\n cell a = 1.5;\n           ^\n",
    ),
    (
        "cell a = 0; a.x = 3;",
        "file:1:14: error: unexpected character `.`\n cell a = 0; a.x = 3;\n              ^\n",
    ),
    (
        "cell a = 0; a = 1,000;",
        "file:1:18: error: unexpected character `,`: numbers have no separators\n cell a = 0; a = 1,000;\n                  ^\n",
    ),
    (
        "cell a = 0; a = max(1,2);",
        "file:1:22: error: unexpected character `,`\n cell a = 0; a = max(1,2);\n                      ^\n",
    ),
    (
        "cell a = 0; a = 1 >>> 1;",
        "file:1:21: error: unexpected character `>`: write `>>`\n cell a = 0; a = 1 >>> 1;\n                     ^\n",
    ),
    (
        "cell a = 'x';",
        "file:1:10: error: unexpected character `'`: there are no strings or characters, only numbers\n cell a = 'x';\n          ^\n",
    ),
    (
        "var a; while (a < 3): a = 1;",
        "file:1:21: error: unexpected character `:`: a block is written between `{` and `}`\n var a; while (a < 3): a = 1;\n                     ^\n",
    ),
    (
        "var a; for (a = 0; a < 3; a = a + 1) { }",
        "file:1:12: error: unexpected `(`: loops are written `while (..) { .. }`\n var a; for (a = 0; a < 3; a = a + 1) { }\n            ^\n",
    ),
    (
        "var a; return a;",
        "file:1:15: error: unexpected `a`: there is no `return`: a program ends after its last statement\n var a; return a;\n               ^\n",
    ),
    (
        "var a; while (a < 3) { break; }",
        "file:1:29: error: unexpected `;`: there is no `break` or `continue`: a loop ends when its test is 0\n var a; while (a < 3) { break; }\n                             ^\n",
    ),
    (
        "var a; if (a) { } elif (1) { }",
        "file:1:24: error: unexpected `(`: write `else { if (..) { .. } }`\n var a; if (a) { } elif (1) { }\n                        ^\n",
    ),
    (
        "var a; a = 1 and 2;",
        "file:1:14: error: unexpected `and`: nest `if`, or write `(a < b) & (c == d)`\n var a; a = 1 and 2;\n              ^~~\n",
    ),
    (
        "var a; if (a < 1 or a == 2) { }",
        "file:1:18: error: unexpected `or`: write `(a < b) | (c == d)`\n var a; if (a < 1 or a == 2) { }\n                  ^~\n",
    ),
    (
        "cell a = 0; a == 1;",
        "file:1:15: error: unexpected `==`: write `=` to assign\n cell a = 0; a == 1;\n               ^~\n",
    ),
    (
        "cell 2x = 0;",
        "file:1:6: error: unexpected `2`: a name begins with a letter or `_`\n cell 2x = 0;\n      ^\n",
    ),
    (
        "cell while = 0;",
        "file:1:6: error: unexpected `while`: a reserved word is not a name\n cell while = 0;\n      ^~~~~\n",
    ),
    (
        "var total; totl = 1;",
        "file:1:12: error: `totl` is not declared; did you mean `total`?\n var total; totl = 1;\n            ^~~~\n",
    ),
    (
        "var a; a = true;",
        "file:1:12: error: `true` is not declared: write 1\n var a; a = true;\n            ^~~~\n",
    ),
    (
        "\u{feff}var a;",
        "file:1:1: error: the file begins with a byte order mark: save it without one\n ?var a;\n ^\n",
    ),
    (
        "var \u{e9};",
        "file:1:5: error: unexpected character `\u{e9}`: the language is written in ASCII\n var \u{e9};\n     ^\n",
    ),
    (
        "halt\n",
        "file: error: this is an assembly text, not a source: `talft asm FILE >OBJECT` makes an object\n",
    ),
];

/// Sources made of a text and a number of copies of another, each with its explanation.
const REPEATED: &[(&str, &str, u32, &str)] = &[
    (
        "",
        " ",
        1_048_577,
        "file: error: the source is too long: at most 1048576 bytes are allowed\n",
    ),
    (
        "cell out = 0;",
        "out = 7;",
        10_922,
        "file: error: the source is too large: its weight is 65537, and at most 65536 is allowed\n",
    ),
    (
        "var x; x = ",
        "(",
        101,
        "file:1:112: error: `(` is nested more than 100 deep\n ..(((((((((((((((((((((((((((((((((((((((((((((((((((((((((((((\n                                                               ^\n",
    ),
    (
        "cell out = 0; out = 1",
        " + 1",
        201,
        "file:1:823: error: `+` is the 201st operator of one assignment or test, and at most 200 are allowed: split it with a variable\n ..+ 1 + 1 + 1 + 1 + 1 + 1 + 1 + 1 + 1 + 1 + 1 + 1 + 1 + 1 + 1 + 1\n                                                               ^\n",
    ),
];

/// Fails unless the text is the explanation of the source, whatever command reads it.
fn check_source(rt: &impl AllocGlobal, source: &str, text: &str) -> Result<(), Fail> {
    for words in &["compile file", "mean file", "exec file --steps 3"] {
        check_said(rt, words, &[("file", source.as_bytes())], text)?;
    }
    Ok(())
}

#[test]
fn refused_sources_are_explained(rt: HostRuntime) -> Result<(), Fail> {
    for (source, text) in SOURCES {
        check_source(&rt, source, text)?;
    }
    Ok(())
}

#[test]
fn habits_from_other_languages_are_explained(rt: HostRuntime) -> Result<(), Fail> {
    for (source, text) in HABITS {
        check_said(&rt, "compile file", &[("file", source.as_bytes())], text)?;
    }
    Ok(())
}

#[test]
fn large_sources_are_explained(rt: HostRuntime) -> Result<(), Fail> {
    for (before, copy, count, text) in REPEATED {
        let source = repeated(&rt, before, copy, *count)?;
        check_source(&rt, source.as_str(), text)?;
    }
    let cells = declared(&rt, "cell ", " = 0;", 1_025, "")?;
    let text = "file: error: the source has 1025 cells: at most 1024 are allowed\n";
    check_source(&rt, cells.as_str(), text)?;
    let variables = declared(&rt, "var ", ";", 31, "n0 = 1;")?;
    let text =
        "file: error: the source needs 33 pairs of registers, but there are only 32: each variable takes one, and long expressions take more; keep some words in cells or an array instead\n";
    check_source(&rt, variables.as_str(), text)
}
