//! Syntax trees.
ghost use Rattle.std.specs.Prelude.{◌≤◌};
ghost use Rattle.ft_syntax.specs.Size.{node_count};

use crate::decl::Decl;
use crate::spot::Spot;
use crate::stmt::Stmt;

/// A syntax tree, whose names are slices of the source. It has at most 1,048,576 declarations, statements and
/// expression nodes together.
#[derive(Debug, Drop)]
pub struct Tree<'a> {
    pub decls: Vec<Decl<'a>>,
    pub body: Vec<Stmt<Spot<'a>>>,
    pub ghost is_small: { node_count decls.items body.items ≤ 1048576 },
}
