//! Altered blocks, instructions and substitutions.
use crate::altered::Row;
use ft_object::ObjectError;

/// Test rows for blocks, over `J`.
pub(crate) const BLOCKS: &[Row] = &[
    (
        "first instruction, of the first block",
        &[(171, 1)],
        ObjectError::Order { at: 168 },
    ),
    (
        "first instruction, not above the one before",
        &[(179, 0)],
        ObjectError::Order { at: 176 },
    ),
    (
        "first instruction, beyond the instructions",
        &[(179, 11)],
        ObjectError::Order { at: 176 },
    ),
    ("code type", &[(175, 2)], ObjectError::Index { at: 172 }),
];

/// Test rows for operations, `mov`, loads, stores and `halt`, over `J`.
pub(crate) const OPERATIONS: &[Row] = &[
    ("kind", &[(184, 8)], ObjectError::Kind { at: 184 }),
    (
        "op: rd",
        &[(184, 0), (185, 64)],
        ObjectError::Index { at: 185 },
    ),
    (
        "op: rs",
        &[(184, 0), (186, 64)],
        ObjectError::Index { at: 186 },
    ),
    (
        "op: rt",
        &[(184, 0), (187, 64)],
        ObjectError::Index { at: 187 },
    ),
    (
        "op: operation",
        &[(184, 0), (191, 5)],
        ObjectError::Kind { at: 188 },
    ),
    ("op: v", &[(184, 0)], ObjectError::Pad { at: 192 }),
    (
        "op with a word: rd",
        &[(184, 1), (185, 64)],
        ObjectError::Index { at: 185 },
    ),
    (
        "op with a word: rs",
        &[(184, 1), (186, 64)],
        ObjectError::Index { at: 186 },
    ),
    (
        "op with a word: colour",
        &[(184, 1), (187, 2)],
        ObjectError::Kind { at: 187 },
    ),
    (
        "op with a word: operation",
        &[(184, 1), (191, 5)],
        ObjectError::Kind { at: 188 },
    ),
    ("mov: rd", &[(185, 64)], ObjectError::Index { at: 185 }),
    ("mov: b", &[(186, 1)], ObjectError::Pad { at: 186 }),
    ("mov: colour", &[(187, 2)], ObjectError::Kind { at: 187 }),
    ("mov: refs", &[(188, 9)], ObjectError::Kind { at: 188 }),
    ("mov: base", &[(189, 2)], ObjectError::Kind { at: 189 }),
    (
        "mov: code type of int",
        &[(191, 1)],
        ObjectError::Pad { at: 190 },
    ),
    (
        "mov: code type",
        &[(223, 2)],
        ObjectError::Index { at: 222 },
    ),
    (
        "ld: rd",
        &[(312, 3), (313, 64)],
        ObjectError::Index { at: 313 },
    ),
    (
        "ld: rs",
        &[(312, 3), (314, 64)],
        ObjectError::Index { at: 314 },
    ),
    (
        "ld: colour",
        &[(312, 3), (315, 2)],
        ObjectError::Kind { at: 315 },
    ),
    ("ld: x", &[(312, 3), (319, 1)], ObjectError::Pad { at: 316 }),
    ("ld: v", &[(312, 3), (327, 1)], ObjectError::Pad { at: 320 }),
    ("st: rd", &[(313, 64)], ObjectError::Index { at: 313 }),
    ("st: rs", &[(314, 64)], ObjectError::Index { at: 314 }),
    ("st: colour", &[(315, 2)], ObjectError::Kind { at: 315 }),
    ("st: x", &[(319, 1)], ObjectError::Pad { at: 316 }),
    (
        "st: upper half of v",
        &[(323, 1)],
        ObjectError::Pad { at: 320 },
    ),
    (
        "st: lower half of v",
        &[(327, 1)],
        ObjectError::Pad { at: 320 },
    ),
    ("halt: a", &[(345, 1)], ObjectError::Pad { at: 345 }),
    ("halt: b", &[(346, 1)], ObjectError::Pad { at: 346 }),
    ("halt: c", &[(347, 1)], ObjectError::Pad { at: 347 }),
    ("halt: x", &[(351, 1)], ObjectError::Pad { at: 348 }),
    (
        "halt: upper half of v",
        &[(355, 1)],
        ObjectError::Pad { at: 352 },
    ),
    (
        "halt: lower half of v",
        &[(359, 1)],
        ObjectError::Pad { at: 352 },
    ),
];

/// Test rows for jumps and branches, over `J`.
pub(crate) const TRANSFERS: &[Row] = &[
    ("jmp: rd", &[(249, 64)], ObjectError::Index { at: 249 }),
    ("jmp: b", &[(250, 1)], ObjectError::Pad { at: 250 }),
    ("jmp: colour", &[(251, 2)], ObjectError::Kind { at: 251 }),
    ("jmp_G: x", &[(255, 1)], ObjectError::Pad { at: 252 }),
    (
        "jmp_G: upper half of v",
        &[(259, 1)],
        ObjectError::Pad { at: 256 },
    ),
    (
        "jmp_G: lower half of v",
        &[(263, 1)],
        ObjectError::Pad { at: 256 },
    ),
    ("jmp_B: first", &[(271, 1)], ObjectError::Order { at: 268 }),
    (
        "jmp_B: past, below first",
        &[(344, 5), (347, 1), (351, 1)],
        ObjectError::Order { at: 352 },
    ),
    (
        "jmp_B: past, beyond the rows",
        &[(275, 2)],
        ObjectError::Order { at: 272 },
    ),
    (
        "jmp_B: memory, no node",
        &[(279, 3)],
        ObjectError::Index { at: 276 },
    ),
    (
        "jmp_B: memory, an integer",
        &[(279, 1)],
        ObjectError::Kind { at: 276 },
    ),
    (
        "bz: rz",
        &[(248, 6), (249, 64)],
        ObjectError::Index { at: 249 },
    ),
    (
        "bz: rd",
        &[(248, 6), (250, 64)],
        ObjectError::Index { at: 250 },
    ),
    (
        "bz: colour",
        &[(248, 6), (251, 2)],
        ObjectError::Kind { at: 251 },
    ),
    (
        "bz_G: x",
        &[(248, 6), (255, 1)],
        ObjectError::Pad { at: 252 },
    ),
    (
        "bz_G: upper half of v",
        &[(248, 6), (259, 1)],
        ObjectError::Pad { at: 256 },
    ),
    (
        "bz_G: lower half of v",
        &[(248, 6), (263, 1)],
        ObjectError::Pad { at: 256 },
    ),
    (
        "bz_B: first",
        &[(264, 6), (271, 1)],
        ObjectError::Order { at: 268 },
    ),
    (
        "bz_B: past, below first",
        &[(344, 6), (347, 1), (351, 1)],
        ObjectError::Order { at: 352 },
    ),
    (
        "bz_B: past, beyond the rows",
        &[(264, 6), (275, 2)],
        ObjectError::Order { at: 272 },
    ),
    (
        "bz_B: memory, no node",
        &[(264, 6), (279, 3)],
        ObjectError::Index { at: 276 },
    ),
    (
        "bz_B: memory, an integer",
        &[(264, 6), (279, 1)],
        ObjectError::Kind { at: 276 },
    ),
];

/// Test rows for a substitution of 128 rows, over `J` with room for them.
pub(crate) const MOST_SUBSTITUTIONS: &[Row] = &[(
    "jmp_B: past, before the second row",
    &[(39, 128), (275, 128)],
    ObjectError::Index { at: 364 },
)];

/// Test rows for substitutions of more than 128 rows, over `J` with room for 129.
pub(crate) const LONG_SUBSTITUTIONS: &[Row] = &[
    (
        "jmp_B: past",
        &[(39, 129), (275, 129)],
        ObjectError::Count { at: 272 },
    ),
    (
        "bz_B: past",
        &[(39, 129), (264, 6), (275, 129)],
        ObjectError::Count { at: 272 },
    ),
];

/// Test rows for substitution rows, over `J`.
pub(crate) const SUBSTITUTION_ROWS: &[Row] = &[
    ("no node", &[(363, 3)], ObjectError::Index { at: 360 }),
    ("a memory", &[(363, 0)], ObjectError::Kind { at: 360 }),
    ("of none", &[(275, 0)], ObjectError::Order { at: 360 }),
    (
        "of none, before its other rules",
        &[(275, 0), (363, 3)],
        ObjectError::Order { at: 360 },
    ),
];
