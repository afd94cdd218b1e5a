//! Spaces other than the ASCII space, which editors and web pages substitute for it.

/// Each of these spaces, with its message.
const SPACES: &[(&str, &str)] = &[
    (
        "\u{a0}",
        "unexpected U+00A0, a no-break space, which looks like a space: write a space",
    ),
    (
        "\u{1680}",
        "unexpected U+1680, an Ogham space mark, which looks like a space: write a space",
    ),
    (
        "\u{2000}",
        "unexpected U+2000, an en quad, which looks like a space: write a space",
    ),
    (
        "\u{2001}",
        "unexpected U+2001, an em quad, which looks like a space: write a space",
    ),
    (
        "\u{2002}",
        "unexpected U+2002, an en space, which looks like a space: write a space",
    ),
    (
        "\u{2003}",
        "unexpected U+2003, an em space, which looks like a space: write a space",
    ),
    (
        "\u{2004}",
        "unexpected U+2004, a three-per-em space, which looks like a space: write a space",
    ),
    (
        "\u{2005}",
        "unexpected U+2005, a four-per-em space, which looks like a space: write a space",
    ),
    (
        "\u{2006}",
        "unexpected U+2006, a six-per-em space, which looks like a space: write a space",
    ),
    (
        "\u{2007}",
        "unexpected U+2007, a figure space, which looks like a space: write a space",
    ),
    (
        "\u{2008}",
        "unexpected U+2008, a punctuation space, which looks like a space: write a space",
    ),
    (
        "\u{2009}",
        "unexpected U+2009, a thin space, which looks like a space: write a space",
    ),
    (
        "\u{200a}",
        "unexpected U+200A, a hair space, which looks like a space: write a space",
    ),
    (
        "\u{202f}",
        "unexpected U+202F, a narrow no-break space, which looks like a space: write a space",
    ),
    (
        "\u{205f}",
        "unexpected U+205F, a medium mathematical space, which looks like a space: write a space",
    ),
    (
        "\u{3000}",
        "unexpected U+3000, an ideographic space, which looks like a space: write a space",
    ),
    (
        "\u{200b}",
        "unexpected U+200B, a zero width space, which is invisible: remove it",
    ),
];

/// The message for the non-ASCII space that bytes begin with, if they begin with one.
pub(crate) fn space_of(bytes: &[u8]) -> Option<&'static str> {
    for (space, words) in SPACES {
        if bytes.starts_with(space.as_bytes()) {
            return Some(*words);
        }
    }
    None
}

/// The first non-ASCII space in a line: its place and its message.
pub(crate) fn first_space(line: &[u8]) -> Option<(usize, &'static str)> {
    let mut first = None;
    for (at, byte) in line.iter().enumerate() {
        if first.is_none() && !byte.is_ascii() {
            first = space_of(line.get(at..).unwrap_or(&[])).map(|words| (at, words));
        }
    }
    first
}
