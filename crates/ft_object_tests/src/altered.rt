//! Altered objects, section by section: for each field, the places that are changed, the bytes written there, and the
//! error with its place.
mod code;
mod header;
mod tables;
mod versions;

pub(crate) use code::{
    BLOCKS, LONG_SUBSTITUTIONS, MOST_SUBSTITUTIONS, OPERATIONS, SUBSTITUTION_ROWS, TRANSFERS,
};
use ft_object::ObjectError;
pub(crate) use header::HEADER;
pub(crate) use tables::{CELLS, NAMES, NODES, QUEUE_ROWS, REGISTER_ROWS, SECOND_CELLS, TYPES};
pub(crate) use versions::{BEYOND_FIRST, LAWFUL_RUNS, LAWFUL_SECOND, RUNS, SECOND};

/// A field or one of its rules; places with the bytes written there; and the error with its place.
pub(crate) type Row = (&'static str, &'static [(usize, u8)], ObjectError);

/// A valid alteration: what it shows, and places with the bytes written there.
pub(crate) type Lawful = (&'static str, &'static [(usize, u8)]);

/// Test rows over `A`, one for each error except the length.
pub(crate) const EACH_ERROR: &[Row] = &[
    ("magic", &[(0, 0x55)], ObjectError::Magic { at: 0 }),
    ("cells", &[(10, 4), (11, 1)], ObjectError::Count { at: 8 }),
    ("padding of a node", &[(67, 1)], ObjectError::Pad { at: 67 }),
    (
        "kind of an instruction",
        &[(104, 8)],
        ObjectError::Kind { at: 104 },
    ),
    (
        "a node that names itself",
        &[(64, 2)],
        ObjectError::Index { at: 68 },
    ),
    ("first block", &[(99, 1)], ObjectError::Order { at: 96 }),
    ("name", &[(216, 0x30)], ObjectError::Name { at: 216 }),
    ("entry", &[(47, 1)], ObjectError::Entry { at: 44 }),
];

/// Valid alterations of `J`.
pub(crate) const LAWFUL: &[Lawful] = &[
    ("refs, the most", &[(52, 8)]),
    ("variables, the most", &[(124, 128)]),
    ("register of a row, the last", &[(156, 63)]),
    (
        "register of a type's first row, that of the type before",
        &[(115, 1), (124, 1), (156, 0)],
    ),
    ("register of an instruction, the last", &[(185, 63)]),
    ("operation with a word, the last", &[(184, 1), (191, 4)]),
    ("name, AZz", &[(364, 65), (365, 90), (366, 122)]),
    ("name, _09", &[(364, 95), (365, 48), (366, 57)]),
    (
        "name, a reserved word",
        &[(364, 118), (365, 97), (366, 114)],
    ),
];
