//! The notes that a walk along the steps of a flow makes: the nodes and substitutions of its object.
ghost use Rattle.std.specs.Prelude.{◌≡◌, ◌≤◌, ◌<◌, ◌+◌, ◌*◌, length, IfOk, OnOk, [], map};
ghost use Rattle.std.specs.List.{All};
ghost use Rattle.ft_lower.specs.Size.{pairs_of, size};
ghost use Rattle.ft_compile.specs.Emitted.{at_first};
ghost use Rattle.ft_compile.specs.Noted.{begun, with_jump, with_memory_node, with_node, with_pair_node};
ghost use Rattle.ft_compile.specs.Viewed.{HasRoom, noted_of};

use ft_isa::Subst;
use ft_static::{Node, Shape};
use std::alloc::{AllocError, Global};

/// The number of pairs.
const PAIRS: usize = 32;

/// The nodes of the pairs at the start of a block: variable i has node 1 + i.
const FIRST_PAIRS: [u32; PAIRS] = [
    1, 2, 3, 4, 5, 6, 7, 8, 9, 10, 11, 12, 13, 14, 15, 16, 17, 18, 19, 20, 21, 22, 23, 24, 25, 26,
    27, 28, 29, 30, 31, 32,
];

/// The nodes, substitution rows and substitutions so far, the node of each pair's integer, and the node of the memory.
#[derive(Drop)]
pub struct Notes {
    pub nodes: Vec<Node>,
    pub rows: Vec<u32>,
    pub substs: Vec<Subst>,
    pub pairs: [u32; PAIRS],
    pub memory: u32,
}

impl Notes {
    /// Notes with only the memory variable and this many integer variables. Reserves room for one node per instruction,
    /// and for one jump's substitution and rows per four instructions: no step adds more nodes than it has
    /// instructions, and a jump has four instructions.
    pub fn new(alloc: Global, vars: u8, instrs: usize) -> Result<Notes, AllocError>
        ensures { IfOk result (λ n. noted_of n ≡ at_first vars) }
    {
        let jumps = instrs / 4;
        let rows = Vec::with_capacity(alloc, jumps.saturating_mul(usize::from(vars)))?;
        let substs = Vec::with_capacity(alloc, jumps)?;
        let mut nodes = Vec::with_capacity(alloc, instrs)?;
        nodes.push(Node {
            scope: 0,
            shape: Shape::Memory,
        })?;
        for i in 0..vars {
            nodes.push(Node {
                scope: vars,
                shape: Shape::Var(i),
            })?;
        }
        Ok(Notes {
            nodes,
            rows,
            substs,
            pairs: FIRST_PAIRS,
            memory: 0,
        })
    }

    /// Begins a block.
    pub fn begin(&mut self)
        ensures { noted_of self.new ≡ begun (noted_of self.old) }
    {
        self.pairs = FIRST_PAIRS;
        self.memory = 0;
    }

    /// Adds a node, and returns its number.
    pub fn put(&mut self, scope: u8, shape: Shape) -> Result<u32, AllocError>
        requires { length self.old.nodes.items < 1048576 }
        ensures number { IfOk result (λ n. n ≡ length self.old.nodes.items) }
        ensures noted { OnOk result (noted_of self.new ≡ with_node scope shape (noted_of self.old)) }
    {
        let number = self.nodes.len() as u32;
        self.nodes.push(Node { scope, shape })?;
        Ok(number)
    }

    /// Adds a node, which becomes pair `p`'s integer.
    pub fn set_pair(&mut self, scope: u8, p: u8, shape: Shape) -> Result<(), AllocError>
        requires pair { p < 32 }
        requires room { length self.old.nodes.items < 1048576 }
        ensures { OnOk result (noted_of self.new ≡ with_pair_node scope p shape (noted_of self.old)) }
    {
        let number = self.put(scope, shape)?;
        self.pairs[p as usize] = number;
        Ok(())
    }

    /// Adds a node, which becomes the memory.
    pub fn set_memory(&mut self, scope: u8, shape: Shape) -> Result<(), AllocError>
        requires { length self.old.nodes.items < 1048576 }
        ensures { OnOk result (noted_of self.new ≡ with_memory_node scope shape (noted_of self.old)) }
    {
        let number = self.put(scope, shape)?;
        self.memory = number;
        Ok(())
    }

    /// Adds a jump's substitution: the current integers of the variables, and the memory.
    pub fn jump(&mut self, vars: u8) -> Result<(), AllocError>
        requires vars { vars ≤ 32 }
        requires room { length self.old.rows.items + 32 ≤ 1048576 }
        ensures { OnOk result (noted_of self.new ≡ with_jump vars (noted_of self.old)) }
    {
        let first = self.rows.len() as u32;
        self.rows.extend_from_slice(&self.pairs[..vars as usize])?;
        self.substs.push(Subst {
            first,
            past: first + u32::from(vars),
            memory: self.memory,
        })?;
        Ok(())
    }
}
