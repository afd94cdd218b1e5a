//! Resolved programs.
ghost use Rattle.std.specs.Prelude.{◌≡◌, ◌≤◌, length};
ghost use Rattle.ft_syntax.specs.Plain.{plain_list};
ghost use Rattle.ft_scope.specs.Size.{same_slot, StatementsFit, whole_need, whole_weight};
ghost use Rattle.ft_scope.specs.Props.{statements_fit_prop};

use crate::slot::Slot;
use ft_syntax::Stmt;

/// A program: its cells in order, the number of variables, and the statements. A cell has its declared name, which is a
/// slice of the source; its place in its array, counted from 0, or `None` for a plain cell; and its initial word. Each
/// slot exists; one with an index is a run of 1 to 1,024 cells, and one without an index is not a run. There are at
/// most 1,024 cells, the need is at most 32 register pairs, and the weight at most 65,536.
#[derive(Debug, Drop)]
pub struct Prog<'a> {
    pub names: Vec<&'a [u8]>,
    pub places: Vec<Option<u32>>,
    pub inits: Vec<u64>,
    pub vars: u8,
    pub body: Vec<Stmt<Slot>>,
    pub ghost as_many: { length names.items ≡ length inits.items },
    pub ghost as_many_places: { length places.items ≡ length inits.items },
    pub ghost fits: { StatementsFit (length inits.items) vars (plain_list same_slot body.items) } by { statements_fit_prop (length inits.items) vars (plain_list same_slot body.items) },
    pub ghost few_cells: { length inits.items ≤ 1024 },
    pub ghost small_need: { whole_need vars (plain_list same_slot body.items) ≤ 32 },
    pub ghost light: { whole_weight vars (plain_list same_slot body.items) ≤ 65536 },
}
