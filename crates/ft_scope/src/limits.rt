//! The limits on cells, register pairs and weight.
ghost use Rattle.std.specs.Prelude.{◌≡◌, ◌≤◌, IfErr, OnOk};
ghost use Rattle.ft_syntax.specs.Plain.{plain_list};
ghost use Rattle.ft_syntax.specs.Size.{statement_nodes};
ghost use Rattle.ft_scope.specs.Size.{same_slot, most_need, statements_weight, whole_need, whole_weight};
ghost use Rattle.ft_scope.specs.Held.{BreaksLimit};

use crate::measure::{Measure, measure_statements};
use crate::slot::Slot;
use ft_syntax::{SourceError, Stmt};

/// How many cells a source may have.
const CELL_LIMIT: u64 = 1_024;
/// How many register pairs a source may need.
const NEED_LIMIT: u64 = 32;
/// How much a source may weigh.
const WEIGHT_LIMIT: u64 = 65_536;

/// The need and the weight of statements of at most 1,048,576 nodes.
fn exact_measure(all: &[Stmt<Slot>]) -> Measure
    requires { statement_nodes (plain_list same_slot all.now) ≤ 1048576 }
    ensures need { result.need ≡ most_need (plain_list same_slot all.now) }
    ensures weight { result.weight ≡ statements_weight (plain_list same_slot all.now) }
    ensures few { result.need ≤ 1048576 }
    ensures light { result.weight ≤ 16777216 }
{
    measure_statements(all)
}

/// Fails with the first limit that this many cells and variables and these statements exceed, if they exceed one.
pub fn within_limits(cells: u64, vars: usize, body: &[Stmt<Slot>]) -> Result<(), SourceError>
    requires few { vars ≤ 1048576 }
    requires small { statement_nodes (plain_list same_slot body.now) ≤ 1048576 }
    ensures few_cells { OnOk result (cells ≤ 1024) }
    ensures small_need { OnOk result (whole_need vars (plain_list same_slot body.now) ≤ 32) }
    ensures light { OnOk result (whole_weight vars (plain_list same_slot body.now) ≤ 65536) }
    ensures err { IfErr result (λ e. BreaksLimit e cells vars (plain_list same_slot body.now)) }
{
    let measure = exact_measure(body);
    let need = vars as u64 + 1 + measure.need;
    let weight = 5 + 2 * (vars as u64) + measure.weight;
    if cells > CELL_LIMIT {
        return Err(SourceError::Cells { count: cells });
    }
    if need > NEED_LIMIT {
        return Err(SourceError::Registers { need });
    }
    if weight > WEIGHT_LIMIT {
        return Err(SourceError::Weight { weight });
    }
    Ok(())
}
