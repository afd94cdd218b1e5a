//! Features of version 2: in bytes of version 1 they are refused, and in bytes of version 2 they have rules of their
//! own.
use crate::altered::{Lawful, Row};
use ft_object::ObjectError;

/// What version 1 does not have, over `J`.
pub(crate) const BEYOND_FIRST: &[Row] = &[
    ("kind 6 of a node", &[(96, 6)], ObjectError::Kind { at: 96 }),
    (
        "operation 5 of a node",
        &[(96, 2), (97, 5)],
        ObjectError::Kind { at: 97 },
    ),
    (
        "operation 6 of a node",
        &[(96, 2), (97, 6)],
        ObjectError::Kind { at: 97 },
    ),
    (
        "operation 7 of a node",
        &[(96, 2), (97, 7)],
        ObjectError::Kind { at: 97 },
    ),
    (
        "operation 8 of a node",
        &[(96, 2), (97, 8)],
        ObjectError::Kind { at: 97 },
    ),
    (
        "operation 9 of a node",
        &[(96, 2), (97, 9)],
        ObjectError::Kind { at: 97 },
    ),
    (
        "kind 8 of an instruction",
        &[(184, 8)],
        ObjectError::Kind { at: 184 },
    ),
    (
        "operation 5",
        &[(184, 0), (191, 5)],
        ObjectError::Kind { at: 188 },
    ),
    (
        "operation 6",
        &[(184, 0), (191, 6)],
        ObjectError::Kind { at: 188 },
    ),
    (
        "operation 7",
        &[(184, 0), (191, 7)],
        ObjectError::Kind { at: 188 },
    ),
    (
        "operation 8 with a word",
        &[(184, 1), (191, 8)],
        ObjectError::Kind { at: 188 },
    ),
    (
        "operation 9 with a word",
        &[(184, 1), (191, 9)],
        ObjectError::Kind { at: 188 },
    ),
    (
        "an opening bracket",
        &[(365, 91)],
        ObjectError::Name { at: 365 },
    ),
    (
        "a closing bracket",
        &[(366, 93)],
        ObjectError::Name { at: 366 },
    ),
    (
        "a name of 33 bytes",
        &[(35, 8), (43, 51), (51, 33)],
        ObjectError::Name { at: 48 },
    ),
    (
        "name bytes, one above 32,768",
        &[(42, 128), (43, 1)],
        ObjectError::Count { at: 40 },
    ),
];

/// Rules of version 2, over `J` with byte 7 set to 2.
pub(crate) const SECOND: &[Row] = &[
    ("kind 7 of a node", &[(96, 7)], ObjectError::Kind { at: 96 }),
    (
        "operation 10 of a node",
        &[(96, 2), (97, 10)],
        ObjectError::Kind { at: 97 },
    ),
    (
        "operation 9 of a node, before its c",
        &[(64, 0), (96, 2), (97, 9)],
        ObjectError::Pad { at: 108 },
    ),
    (
        "rem: operation",
        &[(96, 6), (97, 1)],
        ObjectError::Pad { at: 97 },
    ),
    (
        "rem: a, itself",
        &[(96, 6), (103, 2)],
        ObjectError::Index { at: 100 },
    ),
    (
        "rem: a, a memory",
        &[(96, 6)],
        ObjectError::Kind { at: 100 },
    ),
    (
        "rem: a, its scope",
        &[(96, 6), (103, 1)],
        ObjectError::Index { at: 100 },
    ),
    (
        "rem: length 0",
        &[(96, 6), (98, 1), (103, 1)],
        ObjectError::Count { at: 104 },
    ),
    (
        "rem: length 1,025",
        &[(96, 6), (98, 1), (103, 1), (106, 4), (107, 1)],
        ObjectError::Count { at: 104 },
    ),
    (
        "rem: c",
        &[(96, 6), (98, 1), (103, 1), (107, 1)],
        ObjectError::Pad { at: 108 },
    ),
    (
        "kind 9 of an instruction",
        &[(184, 9)],
        ObjectError::Kind { at: 184 },
    ),
    (
        "operation 10",
        &[(184, 0), (191, 10)],
        ObjectError::Kind { at: 188 },
    ),
    (
        "operation 10 with a word",
        &[(184, 1), (191, 10)],
        ObjectError::Kind { at: 188 },
    ),
    (
        "a bracket, first",
        &[(364, 91)],
        ObjectError::Name { at: 364 },
    ),
    (
        "a name of 41 bytes",
        &[(35, 8), (43, 51), (51, 41)],
        ObjectError::Name { at: 48 },
    ),
    (
        "a name of 40 bytes, before a substitution row",
        &[(35, 8), (43, 51), (51, 40)],
        ObjectError::Index { at: 312 },
    ),
    (
        "name bytes, one above 40,960",
        &[(42, 160), (43, 1)],
        ObjectError::Count { at: 40 },
    ),
    (
        "name bytes, 40,960, before the total",
        &[(42, 160), (43, 0)],
        ObjectError::Length { at: 367 },
    ),
];

/// Test rows for `idx`, over `I`.
pub(crate) const RUNS: &[Row] = &[
    ("version 1", &[(7, 1)], ObjectError::Kind { at: 152 }),
    ("rd", &[(153, 64)], ObjectError::Index { at: 153 }),
    ("rs", &[(154, 64)], ObjectError::Index { at: 154 }),
    ("c", &[(155, 1)], ObjectError::Pad { at: 155 }),
    (
        "first, the number of cells",
        &[(159, 3)],
        ObjectError::Index { at: 156 },
    ),
    (
        "length, upper half",
        &[(163, 1)],
        ObjectError::Count { at: 160 },
    ),
    ("length 0", &[(167, 0)], ObjectError::Count { at: 160 }),
    (
        "length 1,025",
        &[(166, 4), (167, 1)],
        ObjectError::Count { at: 160 },
    ),
    (
        "length 1,024, above the number of cells",
        &[(166, 4), (167, 0)],
        ObjectError::Index { at: 160 },
    ),
    (
        "first and length, one too far",
        &[(159, 1)],
        ObjectError::Index { at: 160 },
    ),
];

/// Valid alterations of `J` with byte 7 set to 2.
pub(crate) const LAWFUL_SECOND: &[Lawful] = &[
    ("as it is", &[]),
    (
        "rem, length 1",
        &[(96, 6), (98, 1), (103, 1), (107, 1), (111, 0)],
    ),
    (
        "rem, length 1,024",
        &[(96, 6), (98, 1), (103, 1), (106, 4), (111, 0)],
    ),
    (
        "and",
        &[(96, 2), (97, 5), (98, 1), (103, 1), (107, 1), (111, 0)],
    ),
    (
        "or",
        &[(96, 2), (97, 6), (98, 1), (103, 1), (107, 1), (111, 0)],
    ),
    (
        "xor",
        &[(96, 2), (97, 7), (98, 1), (103, 1), (107, 1), (111, 0)],
    ),
    (
        "shl",
        &[(96, 2), (97, 8), (98, 1), (103, 1), (107, 1), (111, 0)],
    ),
    (
        "shr",
        &[(96, 2), (97, 9), (98, 1), (103, 1), (107, 1), (111, 0)],
    ),
    ("and of registers", &[(184, 0), (191, 5), (199, 0)]),
    ("or of registers", &[(184, 0), (191, 6), (199, 0)]),
    ("xor of registers", &[(184, 0), (191, 7), (199, 0)]),
    ("shl with a word", &[(184, 1), (191, 8)]),
    ("shr with a word", &[(184, 1), (191, 9)]),
    ("brackets in a name", &[(365, 91), (366, 93)]),
];

/// Valid alterations of `I`.
pub(crate) const LAWFUL_RUNS: &[Lawful] = &[
    ("the last cell alone", &[(159, 2), (167, 1)]),
    ("the last two cells", &[(159, 1), (167, 2)]),
];
