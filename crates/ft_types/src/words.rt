//! Nodes as two words each: the two halves of a node's record in the object format.
ghost use Rattle.std.specs.Prelude.{◌≡◌, ◌∷◌, [], ℕ};
ghost use Rattle.ft_types.specs.NodeRows.{high_half, joined, low_half, node_words, row_words, shape_row};

use ft_static::{Node, Shape};

/// A word from its two halves.
#[inline(always)]
pub fn joined(high: u32, low: u32) -> u64
    ensures { result ≡ joined high low }
{
    (u64::from(high) << 32) | u64::from(low)
}

/// The words of a record with these numbers: kind, operation, scope and padding, then a, b and c.
#[inline(always)]
pub fn row_words(kind: u8, op: u8, scope: u8, pad: u8, a: u32, b: u32, c: u32) -> (u64, u64)
    ensures { result ≡ row_words (kind ∷ op ∷ scope ∷ pad ∷ a ∷ b ∷ c ∷ []) }
{
    let front = u32::from_be_bytes([kind, op, scope, pad]);
    (joined(front, a), joined(b, c))
}

/// The upper four bytes of a word.
pub fn high_half(word: u64) -> u32
    ensures { result ≡ high_half word }
{
    (word >> 32) as u32
}

/// The lower four bytes of a word.
pub fn low_half(word: u64) -> u32
    ensures { result ≡ low_half word }
{
    (word & 0xffff_ffff) as u32
}

/// The numbers of a node's record: kind, operation, a, b and c. Its scope is not among them.
#[derive(Clone, Copy)]
pub struct ShapeNumbers {
    pub kind: u8,
    pub op: u8,
    pub a: u32,
    pub b: u32,
    pub c: u32,
}

/// The numbers of a node of this shape.
pub fn shape_numbers(shape: Shape) -> ShapeNumbers
    ensures { (scope : ℕ) → result.kind ∷ result.op ∷ scope ∷ 0 ∷ result.a ∷ result.b ∷ result.c ∷ [] ≡ shape_row scope shape }
{
    let (kind, op, a, b, c) = match shape {
        Shape::Word(word) => (0, 0, 0, high_half(word), low_half(word)),
        Shape::Var(i) => (1, 0, u32::from(i), 0, 0),
        Shape::Op { op, a, b } => (2, op.code(), a, b, 0),
        Shape::Sel { memory, at } => (3, 0, memory, at, 0),
        Shape::Memory => (4, 0, 0, 0, 0),
        Shape::Upd { memory, at, value } => (5, 0, memory, at, value),
        Shape::Rem { a, length } => (6, 0, a, length, 0),
    };
    ShapeNumbers { kind, op, a, b, c }
}

/// A node as two words.
pub(crate) fn node_words(node: Node) -> (u64, u64)
    ensures { result ≡ node_words node }
{
    let numbers = shape_numbers(node.shape);
    row_words(
        numbers.kind,
        numbers.op,
        node.scope,
        0,
        numbers.a,
        numbers.b,
        numbers.c,
    )
}
