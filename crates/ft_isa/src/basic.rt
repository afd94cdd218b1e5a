//! Basic types, which a `mov` claims and a cell declares.

/// The base of a basic type.
#[derive(Clone, Copy, Debug, PartialEq, Eq)]
pub enum Base {
    /// Any word.
    Int,
    /// The code address of a block of the code type with this number.
    Code(u16),
}

/// A basic type: `ref` repeated `refs` times, then the base.
#[derive(Clone, Copy, Debug, PartialEq, Eq)]
pub struct Basic {
    pub refs: u8,
    pub base: Base,
}

/// The basic type of all words.
pub const INT: Basic = Basic {
    refs: 0,
    base: Base::Int,
};

/// The basic type of the addresses of cells of type `INT`.
pub const REF_INT: Basic = Basic {
    refs: 1,
    base: Base::Int,
};
