//! Numbers nodes so that equal trees have equal numbers.
ghost use Rattle.std.specs.Prelude.{◌≡◌, ◌<◌, Some, IfOk, cond, length, unwrap_or};
ghost use Rattle.ft_static.specs.NodeRules.{AreNodes};
ghost use Rattle.ft_modules.specs.TreeKeys.{key_of, number_in};
ghost use Rattle.ft_linker.specs.Keys.{look};
ghost use Rattle.ft_static.specs.NodeTree.{HasPartsBelow};
ghost use Rattle.ft_static.specs.declared.node.Shape.{Shape as Key};
ghost use Rattle.ft_static.specs.contracts.node.ShapeOrd.TheImpl as key_order;
ghost use Rattle.ft_linker.specs.Numbers.{AreNumbered};
ghost use Rattle.std.specs.BTreeMap.{is_at};

use ft_static::{Node, Shape};
use std::alloc::{AllocError, Global};
use std::collections::BTreeMap;

/// The number of the tree of node `n`.
fn number(numbers: &[u32], n: u32) -> u32
    requires { n < length numbers.now }
    ensures { result ≡ number_in numbers.now n }
{
    numbers[n as usize]
}

/// The key of a shape: the shape with each part replaced by the number of the part's tree.
fn key_of(numbers: &[u32], shape: Shape) -> Shape
    requires { HasPartsBelow (length numbers.now) shape }
    ensures { result ≡ key_of numbers.now shape }
{
    match shape {
        Shape::Op { op, a, b } => Shape::Op {
            op,
            a: number(numbers, a),
            b: number(numbers, b),
        },
        Shape::Sel { memory, at } => Shape::Sel {
            memory: number(numbers, memory),
            at: number(numbers, at),
        },
        Shape::Upd { memory, at, value } => Shape::Upd {
            memory: number(numbers, memory),
            at: number(numbers, at),
            value: number(numbers, value),
        },
        Shape::Rem { a, length } => Shape::Rem {
            a: number(numbers, a),
            length,
        },
        other => other,
    }
}

/// Returns the number known for a key; if there is none, records and returns `next`.
#[tactic(auto, unfolding(crate::specs::Keys::look))]
fn number_key(known: &mut BTreeMap<Shape, u32>, key: Shape, next: u32) -> Result<u32, AllocError>
    ensures number { IfOk result (λ c. c ≡ unwrap_or (look known.old key) next) }
    ensures known { IfOk result (λ c. (q : Key) → look known.new q ≡ cond (is_at ((key_order.ghosts).cmp key) q) (Some c) (look known.old q)) }
{
    let number = known.get(&key).copied().unwrap_or(next);
    known.insert(key, number)?;
    Ok(number)
}

/// Numbers the nodes in order: two nodes have the same number exactly when they stand for the same tree.
pub fn number_trees(alloc: Global, nodes: &[Node]) -> Result<Vec<u32>, AllocError>
    requires { AreNodes nodes.now }
    ensures { IfOk result (λ v. AreNumbered nodes.now v.items) }
{
    let mut known = BTreeMap::new(alloc);
    let mut numbers = Vec::with_capacity(alloc, nodes.len())?;
    for n in 0..nodes.len() {
        let node = nodes[n];
        let key = key_of(numbers.as_slice(), node.shape);
        let number = number_key(&mut known, key, n as u32)?;
        numbers.push(number)?;
    }
    Ok(numbers)
}
