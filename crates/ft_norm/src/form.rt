//! How callers refer to normal forms.

/// A normal form that an interner holds, given by its place in the interner's list.
#[derive(Clone, Copy, Debug, PartialEq, Eq)]
pub struct Form(pub(crate) u32);
