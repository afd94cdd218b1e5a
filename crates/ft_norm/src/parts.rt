//! Replaces the parts of a node by the forms that were made for them.
ghost use Rattle.std.specs.Prelude.{◌≡◌, ◌<◌, ℕ, nat_eq, None, IfErr, IfOk};
ghost use Rattle.indexmap.specs.IndexMap.{get};
ghost use Rattle.ft_static.specs.NodeTree.{HasPartsBelow};
ghost use Rattle.ft_norm.specs.Parts.{AreMade, IsMade, number_in};

use crate::form::Form;
use ft_static::Shape;
use indexmap::IndexMap;

/// The number of the form made for node `n`; `Err(n)` if none was made.
fn part(made: &IndexMap<u32, Form>, n: u32) -> Result<u32, u32>
    ensures number { IfOk result (λ i. i ≡ number_in made.now n) }
    ensures made { IfOk result (λ i. IsMade made.now n) }
    ensures missing { IfErr result (λ k. (k ≡ n) × (get nat_eq made.now n ≡ None)) }
{
    match made.get(&n) {
        Some(form) => Ok(form.0),
        None => Err(n),
    }
}

/// The shape with each part replaced by the number of its form; or else a part for which no form was made.
pub fn parts_of(made: &IndexMap<u32, Form>, shape: Shape) -> Result<Shape, u32>
    ensures made { IfOk result (AreMade made.now shape) }
    ensures missing { IfErr result (λ k. ((n : ℕ) → HasPartsBelow n shape → k < n) × (get nat_eq made.now k ≡ None)) }
{
    let parts = match shape {
        Shape::Op { op, a, b } => Shape::Op {
            op,
            a: part(made, a)?,
            b: part(made, b)?,
        },
        Shape::Sel { memory, at } => Shape::Sel {
            memory: part(made, memory)?,
            at: part(made, at)?,
        },
        Shape::Upd { memory, at, value } => Shape::Upd {
            memory: part(made, memory)?,
            at: part(made, at)?,
            value: part(made, value)?,
        },
        Shape::Rem { a, length } => Shape::Rem {
            a: part(made, a)?,
            length,
        },
        _ => shape,
    };
    Ok(parts)
}
