//! Altered cells, nodes, types with their rows, and names.
use crate::altered::Row;
use ft_object::ObjectError;

/// Test rows for cells, over `J`.
pub(crate) const CELLS: &[Row] = &[
    (
        "name's end, not above the one before",
        &[(51, 0)],
        ObjectError::Order { at: 48 },
    ),
    (
        "name's end, beyond the name bytes",
        &[(51, 4)],
        ObjectError::Order { at: 48 },
    ),
    (
        "name's end, above 32 bytes",
        &[(35, 8), (43, 51), (51, 33)],
        ObjectError::Name { at: 48 },
    ),
    (
        "name's end, at 32 bytes, before a substitution row",
        &[(35, 8), (43, 51), (51, 32)],
        ObjectError::Index { at: 312 },
    ),
    ("refs", &[(52, 9)], ObjectError::Kind { at: 52 }),
    ("base", &[(53, 2)], ObjectError::Kind { at: 53 }),
    ("code type of int", &[(55, 1)], ObjectError::Pad { at: 54 }),
    (
        "code type",
        &[(53, 1), (55, 2)],
        ObjectError::Index { at: 54 },
    ),
];

/// Test rows for a second cell, over `P9`.
pub(crate) const SECOND_CELLS: &[Row] = &[
    (
        "name's end, not above the one before",
        &[(67, 3)],
        ObjectError::Order { at: 64 },
    ),
    (
        "name, an earlier cell's",
        &[(235, 111), (236, 117), (237, 116)],
        ObjectError::Name { at: 235 },
    ),
];

/// Test rows for nodes, over `J`.
pub(crate) const NODES: &[Row] = &[
    ("kind", &[(64, 6)], ObjectError::Kind { at: 64 }),
    (
        "operation of another kind",
        &[(65, 1)],
        ObjectError::Pad { at: 65 },
    ),
    (
        "operation",
        &[(96, 2), (97, 5)],
        ObjectError::Kind { at: 97 },
    ),
    (
        "operation, the last, before its c",
        &[(64, 0), (96, 2), (97, 4)],
        ObjectError::Pad { at: 108 },
    ),
    ("scope", &[(66, 129)], ObjectError::Count { at: 66 }),
    (
        "scope, the greatest, before a type's memory",
        &[(66, 128)],
        ObjectError::Index { at: 120 },
    ),
    ("padding", &[(67, 1)], ObjectError::Pad { at: 67 }),
    ("word: a", &[(103, 1)], ObjectError::Pad { at: 100 }),
    (
        "variable: number",
        &[(87, 1)],
        ObjectError::Index { at: 84 },
    ),
    ("variable: b", &[(91, 1)], ObjectError::Pad { at: 88 }),
    ("variable: c", &[(95, 1)], ObjectError::Pad { at: 92 }),
    (
        "operation: a, itself",
        &[(64, 2)],
        ObjectError::Index { at: 68 },
    ),
    (
        "operation: a, a memory",
        &[(96, 2)],
        ObjectError::Kind { at: 100 },
    ),
    (
        "operation: a, its scope",
        &[(96, 2), (103, 1)],
        ObjectError::Index { at: 100 },
    ),
    (
        "operation: b, itself",
        &[(96, 2), (98, 1), (103, 1), (107, 2)],
        ObjectError::Index { at: 104 },
    ),
    (
        "operation: b, a memory",
        &[(96, 2), (98, 1), (103, 1)],
        ObjectError::Kind { at: 104 },
    ),
    (
        "operation: b, its scope",
        &[(64, 0), (96, 2), (107, 1)],
        ObjectError::Index { at: 104 },
    ),
    (
        "operation: c",
        &[(64, 0), (96, 2)],
        ObjectError::Pad { at: 108 },
    ),
    (
        "sel: a, itself",
        &[(96, 3), (103, 2)],
        ObjectError::Index { at: 100 },
    ),
    (
        "sel: a, an integer",
        &[(96, 3), (103, 1)],
        ObjectError::Kind { at: 100 },
    ),
    (
        "sel: a, its scope",
        &[(66, 1), (96, 3)],
        ObjectError::Index { at: 100 },
    ),
    (
        "sel: b, itself",
        &[(96, 3), (107, 2)],
        ObjectError::Index { at: 104 },
    ),
    (
        "sel: b, a memory",
        &[(96, 3)],
        ObjectError::Kind { at: 104 },
    ),
    (
        "sel: b, its scope",
        &[(96, 3), (107, 1)],
        ObjectError::Index { at: 104 },
    ),
    (
        "sel: c",
        &[(96, 3), (98, 1), (107, 1)],
        ObjectError::Pad { at: 108 },
    ),
    (
        "memory variable: a",
        &[(71, 1)],
        ObjectError::Pad { at: 68 },
    ),
    (
        "memory variable: b",
        &[(75, 1)],
        ObjectError::Pad { at: 72 },
    ),
    (
        "memory variable: c",
        &[(79, 1)],
        ObjectError::Pad { at: 76 },
    ),
    (
        "upd: a, itself",
        &[(96, 5), (103, 2)],
        ObjectError::Index { at: 100 },
    ),
    (
        "upd: a, an integer",
        &[(96, 5), (103, 1)],
        ObjectError::Kind { at: 100 },
    ),
    (
        "upd: a, its scope",
        &[(66, 1), (96, 5)],
        ObjectError::Index { at: 100 },
    ),
    (
        "upd: b, itself",
        &[(96, 5), (107, 2)],
        ObjectError::Index { at: 104 },
    ),
    (
        "upd: b, a memory",
        &[(96, 5)],
        ObjectError::Kind { at: 104 },
    ),
    (
        "upd: b, its scope",
        &[(96, 5), (107, 1)],
        ObjectError::Index { at: 104 },
    ),
    (
        "upd: c, a later node",
        &[(96, 5), (98, 1), (107, 1)],
        ObjectError::Index { at: 108 },
    ),
    (
        "upd: c, a memory",
        &[(96, 5), (98, 1), (107, 1), (111, 0)],
        ObjectError::Kind { at: 108 },
    ),
    (
        "upd: c, its scope",
        &[(15, 4), (35, 10), (112, 5), (123, 2), (127, 1)],
        ObjectError::Index { at: 124 },
    ),
];

/// Test rows for types, over `J`.
pub(crate) const TYPES: &[Row] = &[
    (
        "register rows' end, beyond the rows",
        &[(115, 3)],
        ObjectError::Order { at: 112 },
    ),
    (
        "second register rows' end, beyond the rows",
        &[(131, 3)],
        ObjectError::Order { at: 128 },
    ),
    (
        "register rows' end, below the one before",
        &[(115, 1), (131, 0)],
        ObjectError::Order { at: 128 },
    ),
    (
        "queue rows' end, beyond the rows",
        &[(119, 1)],
        ObjectError::Order { at: 116 },
    ),
    (
        "queue rows' end, below the one before",
        &[(27, 1), (31, 1), (119, 1)],
        ObjectError::Order { at: 132 },
    ),
    (
        "queue rows' end, above 8 rows",
        &[(27, 9), (31, 1), (35, 7), (119, 9)],
        ObjectError::Count { at: 116 },
    ),
    (
        "queue rows' end, at 8 rows, before the first of them",
        &[(27, 8), (35, 7), (119, 8), (135, 8)],
        ObjectError::Kind { at: 168 },
    ),
    (
        "memory, no node",
        &[(123, 3)],
        ObjectError::Index { at: 120 },
    ),
    (
        "memory, an integer",
        &[(123, 1)],
        ObjectError::Kind { at: 120 },
    ),
    (
        "memory, its scope",
        &[(66, 1)],
        ObjectError::Index { at: 120 },
    ),
    ("variables", &[(124, 129)], ObjectError::Count { at: 124 }),
    ("padding", &[(125, 1)], ObjectError::Pad { at: 125 }),
    (
        "second byte of the padding",
        &[(126, 1)],
        ObjectError::Pad { at: 125 },
    ),
    (
        "third byte of the padding",
        &[(127, 1)],
        ObjectError::Pad { at: 125 },
    ),
];

/// Test rows for register rows, over `J`.
pub(crate) const REGISTER_ROWS: &[Row] = &[
    ("register", &[(144, 64)], ObjectError::Index { at: 144 }),
    (
        "register, not above the one before",
        &[(156, 0)],
        ObjectError::Order { at: 156 },
    ),
    ("colour", &[(145, 2)], ObjectError::Kind { at: 145 }),
    ("padding", &[(146, 1)], ObjectError::Pad { at: 146 }),
    (
        "second byte of the padding",
        &[(147, 1)],
        ObjectError::Pad { at: 146 },
    ),
    ("refs", &[(148, 9)], ObjectError::Kind { at: 148 }),
    ("base", &[(149, 2)], ObjectError::Kind { at: 149 }),
    (
        "code type of int",
        &[(151, 1)],
        ObjectError::Pad { at: 150 },
    ),
    (
        "code type",
        &[(149, 1), (151, 2)],
        ObjectError::Index { at: 150 },
    ),
    (
        "expression, no node",
        &[(155, 3)],
        ObjectError::Index { at: 152 },
    ),
    (
        "expression, a memory",
        &[(155, 0)],
        ObjectError::Kind { at: 152 },
    ),
    (
        "expression, its scope",
        &[(115, 2)],
        ObjectError::Index { at: 152 },
    ),
    ("of none", &[(131, 1)], ObjectError::Order { at: 156 }),
    (
        "of none, before its other rules",
        &[(131, 1), (156, 64)],
        ObjectError::Order { at: 156 },
    ),
];

/// Test rows for queue rows, over `J` with its first block's record as a queue row.
pub(crate) const QUEUE_ROWS: &[Row] = &[
    (
        "address, no node",
        &[(27, 1), (31, 1), (135, 1), (171, 3)],
        ObjectError::Index { at: 168 },
    ),
    (
        "address, a memory",
        &[(27, 1), (31, 1), (135, 1)],
        ObjectError::Kind { at: 168 },
    ),
    (
        "address, its scope",
        &[(27, 1), (31, 1), (119, 1), (135, 1), (171, 1)],
        ObjectError::Index { at: 168 },
    ),
    (
        "value, no node",
        &[(27, 1), (31, 1), (135, 1), (171, 2), (175, 3)],
        ObjectError::Index { at: 172 },
    ),
    (
        "value, a memory",
        &[(27, 1), (31, 1), (135, 1), (171, 2)],
        ObjectError::Kind { at: 172 },
    ),
    (
        "value, its scope",
        &[(27, 1), (31, 1), (119, 1), (135, 1), (171, 2), (175, 1)],
        ObjectError::Index { at: 172 },
    ),
    (
        "of none, before its other rules",
        &[(27, 1), (31, 1)],
        ObjectError::Order { at: 168 },
    ),
];

/// Test rows for names, over `J`.
pub(crate) const NAMES: &[Row] = &[
    ("first byte", &[(364, 48)], ObjectError::Name { at: 364 }),
    ("second byte", &[(365, 45)], ObjectError::Name { at: 365 }),
    ("last byte", &[(366, 32)], ObjectError::Name { at: 366 }),
    ("a byte of none", &[(51, 2)], ObjectError::Order { at: 366 }),
];
