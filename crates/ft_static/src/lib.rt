//! Expressions over words and memories, in numbered nodes, and their normal forms.
//!
//! The crate defines nodes and the rules that a list of nodes obeys (`specs/NodeRules.antt`):
//! a node refers only to lower nodes, so each stands for one tree (`specs/NodeTree.antt`). It defines
//! what trees denote (`specs/Expression.antt`) and their normal forms (`specs/NormalForm.antt`), and
//! promises in `laws` that a form denotes the same value as its expression.
#![tactic(auto)]

mod examples;
mod laws;
mod node;

pub use examples::{
    examples_of_bits, examples_of_memories, examples_of_nodes, examples_of_products,
    examples_of_remainders, examples_of_selections, examples_of_sums, examples_of_tests,
    examples_of_words,
};
pub use laws::{
    forms_are_in_order, forms_are_known_by_coefficients, forms_are_ordered,
    forms_denote_as_expressions, nodes_stand_for_trees, rows_denote, substitution_is_on_forms,
};
pub use node::{Node, Nodes, Shape};
