//! The fields of an object's records.

/// A field: where it begins in its record, how many bytes it has, and its name.
pub(crate) type Field = (usize, usize, &'static str);

/// The name of a field that is not used.
const UNUSED: &str = "a field that is not used";

/// The fields of the header.
pub(crate) const HEADER: &[Field] = &[
    (0, 8, "magic and version"),
    (8, 4, "the number of cells"),
    (12, 4, "the number of nodes"),
    (16, 4, "the number of code types"),
    (20, 4, "the number of register rows"),
    (24, 4, "the number of queue rows"),
    (28, 4, "the number of blocks"),
    (32, 4, "the number of instructions"),
    (36, 4, "the number of substitution rows"),
    (40, 4, "the number of name bytes"),
    (44, 4, "the entry block"),
];

/// The fields of a cell.
pub(crate) const CELL: &[Field] = &[
    (0, 4, "the end of its name"),
    (4, 1, "the number of `ref`s in its type"),
    (5, 1, "the base of its type"),
    (6, 2, "the code type of its type"),
    (8, 8, "its initial word"),
];

/// The fields of a code type.
pub(crate) const TYPE: &[Field] = &[
    (0, 4, "the end of its register rows"),
    (4, 4, "the end of its queue rows"),
    (8, 4, "the node of its memory"),
    (12, 1, "the number of its integer variables"),
    (13, 3, UNUSED),
];

/// The fields of a register row.
pub(crate) const REG: &[Field] = &[
    (0, 1, "its register"),
    (1, 1, "its colour"),
    (2, 2, UNUSED),
    (4, 1, "the number of `ref`s in its type"),
    (5, 1, "the base of its type"),
    (6, 2, "the code type of its type"),
    (8, 4, "the node of its expression"),
];

/// The fields of a queue row.
pub(crate) const QUEUE: &[Field] = &[
    (0, 4, "the node of its address"),
    (4, 4, "the node of its value"),
];

/// The fields of a block.
pub(crate) const BLOCK: &[Field] = &[(0, 4, "its first instruction"), (4, 4, "its code type")];

/// The field of a substitution row.
pub(crate) const SUBST: &[Field] = &[(0, 4, "its node")];

/// The field of a name byte.
pub(crate) const NAME: &[Field] = &[(0, 1, "the byte itself")];

/// The fields of each kind of node, after the fields that all nodes have.
const NODES: &[&[Field]] = &[
    &[(4, 4, UNUSED), (8, 8, "its word")],
    &[
        (4, 4, "the number of its variable"),
        (8, 4, UNUSED),
        (12, 4, UNUSED),
    ],
    &[
        (4, 4, "its first part"),
        (8, 4, "its second part"),
        (12, 4, UNUSED),
    ],
    &[
        (4, 4, "the node of its memory"),
        (8, 4, "the node of its address"),
        (12, 4, UNUSED),
    ],
    &[(4, 4, UNUSED), (8, 4, UNUSED), (12, 4, UNUSED)],
    &[
        (4, 4, "the node of its memory"),
        (8, 4, "the node of its address"),
        (12, 4, "the node of its value"),
    ],
    &[
        (4, 4, "the node of its part"),
        (8, 4, "its length"),
        (12, 4, UNUSED),
    ],
];

/// The fields that all nodes have.
const NODE: &[Field] = &[
    (0, 1, "its kind"),
    (1, 1, "its operation"),
    (2, 1, "its scope"),
    (3, 1, UNUSED),
];

/// The fields of a jump or a branch.
const TRANSFER: &[Field] = &[
    (0, 1, "its kind"),
    (1, 1, "its first register"),
    (2, 1, "its second register, where it has one"),
    (3, 1, "its colour"),
    (4, 4, "the first row of its substitution, where it has one"),
    (8, 4, "the end of its substitution, where it has one"),
    (
        12,
        4,
        "the node of its substitution's memory, where it has one",
    ),
];

/// The fields of a load or a store.
const ACCESS: &[Field] = &[
    (0, 1, "its kind"),
    (1, 1, "its register rd"),
    (2, 1, "its register rs"),
    (3, 1, "its colour"),
    (4, 4, UNUSED),
    (8, 8, UNUSED),
];

/// The fields of each kind of instruction.
const INSTRS: &[&[Field]] = &[
    &[
        (0, 1, "its kind"),
        (1, 1, "its register rd"),
        (2, 1, "its register rs"),
        (3, 1, "its register rt"),
        (4, 4, "its operation"),
        (8, 8, UNUSED),
    ],
    &[
        (0, 1, "its kind"),
        (1, 1, "its register rd"),
        (2, 1, "its register rs"),
        (3, 1, "its colour"),
        (4, 4, "its operation"),
        (8, 8, "its word"),
    ],
    &[
        (0, 1, "its kind"),
        (1, 1, "its register rd"),
        (2, 1, UNUSED),
        (3, 1, "its colour"),
        (4, 1, "the number of `ref`s in its type"),
        (5, 1, "the base of its type"),
        (6, 2, "the code type of its type"),
        (8, 8, "its word"),
    ],
    ACCESS,
    ACCESS,
    TRANSFER,
    TRANSFER,
    &[
        (0, 1, "its kind"),
        (1, 1, UNUSED),
        (2, 1, UNUSED),
        (3, 1, UNUSED),
        (4, 4, UNUSED),
        (8, 8, UNUSED),
    ],
    &[
        (0, 1, "its kind"),
        (1, 1, "its register rd"),
        (2, 1, "its register rs"),
        (3, 1, UNUSED),
        (4, 4, "its first cell"),
        (8, 8, "its length"),
    ],
];

/// The field at this offset of a record.
pub(crate) fn field_at(fields: &[Field], offset: usize) -> Option<Field> {
    let mut found = None;
    for field in fields {
        if field.0 <= offset {
            found = Some(*field);
        }
    }
    found
}

/// The field at this offset in the record of a node of this kind.
pub(crate) fn node_field(kind: u8, offset: usize) -> Option<Field> {
    if offset < 4 {
        return field_at(NODE, offset);
    }
    field_at(
        NODES.get(usize::from(kind)).copied().unwrap_or(NODE),
        offset,
    )
}

/// The field at this offset in the record of an instruction of this kind.
pub(crate) fn instr_field(kind: u8, offset: usize) -> Option<Field> {
    field_at(
        INSTRS.get(usize::from(kind)).copied().unwrap_or(ACCESS),
        offset,
    )
}
