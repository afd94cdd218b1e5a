//! Numbered nodes of expressions.
ghost use Rattle.std.specs.Prelude.{◌≡◌, ◌<◌, ◌^◌, Some, length, slice_get};

use ft_isa::Op;

/// What a node is. `a`, `b`, `at`, `value` and `memory` are the numbers of lower nodes.
#[derive(Clone, Copy, Debug, PartialEq, Eq, PartialOrd, Ord, Hash)]
pub enum Shape {
    /// A word.
    Word(u64),
    /// The integer variable with this number.
    Var(u8),
    /// An operation on two integers.
    Op { op: Op, a: u32, b: u32 },
    /// The word of a memory at an address.
    Sel { memory: u32, at: u32 },
    /// The memory variable.
    Memory,
    /// A memory with another word at one address.
    Upd { memory: u32, at: u32, value: u32 },
    /// The remainder of an integer divided by a length, which is 1 to 1,024.
    Rem { a: u32, length: u32 },
}

/// A node: what it is, and its scope. Among nodes that obey the rules, a scope is at most 128 and above
/// the number of each integer variable in the tree that the node stands for.
#[derive(Clone, Copy, Debug, PartialEq, Eq)]
pub struct Node {
    pub scope: u8,
    pub shape: Shape,
}

/// Numbered nodes, however they are stored. They represent a list of nodes.
pub trait Nodes {
    ghost use Rattle.std.specs.Prelude.{List};
    ghost use Rattle.ft_static.specs.declared.node.Node.{Node};

    ghost nodes: { Self → List Node };

    /// How many nodes there are.
    fn node_count(&self) -> u32
        requires { length (nodes self.now) < 2 ^ 32 }
        ensures { result ≡ length (nodes self.now) };

    /// Node `n`.
    fn node(&self, n: u32) -> Node
        requires { n < length (nodes self.now) }
        ensures { slice_get (nodes self.now) n ≡ Some result };
}
