//! Compiles a flow to an object.
ghost use Rattle.std.specs.Prelude.{◌≡◌, ◌≤◌, length, map, IfOk};
ghost use Rattle.ft_lower.specs.Cutting.{blocks_of};
ghost use Rattle.ft_lower.specs.Well.{IsWell};
ghost use Rattle.ft_compile.specs.Cells.{AreCells};
ghost use Rattle.ft_compile.specs.Emitted.{emitted};
ghost use Rattle.ft_compile.specs.FlowObjects.{StandsForFlow};
ghost use Rattle.ft_modules.specs.Linkable.{IsModule};

use crate::emission::emit_cells;
use ft_dup::duplicate;
use ft_isa::NoMemory;
use ft_lower::Flow;
use ft_types::Object;
use std::alloc::Global;

/// Compiles a well-formed flow over at most 1,024 cells with these names and initial words to an object that stands for
/// it. The object has these cells, of type `int`; it is spellable and accepted, and has as many instructions as the
/// flow's steps become. Whatever initial words its cells are given, its run without a fault is never detected and
/// commits the outputs of the flow's run over these words; if the flow is done after k steps, the run is done after 8k
/// steps. The object is also a module that the linker accepts. The only error is `NoMemory`.
pub fn compile_flow(
    alloc: Global,
    names: Vec<Vec<u8>>,
    inits: &[u64],
    flow: &Flow,
) -> Result<Object, NoMemory>
    requires cells { AreCells (map (λ n. n.items) names.items) inits.now }
    requires many { flow.now.cells ≡ length inits.now }
    requires vars { flow.now.vars ≤ 32 }
    requires well { IsWell flow.now.vars flow.now.cells (blocks_of flow.now) }
    ensures stands { IfOk result (StandsForFlow (map (λ n. n.items) names.items) inits.now (blocks_of flow.now)) }
    ensures joins { IfOk result (λ o. IsModule o.cells o) }
    ensures emitted { IfOk result (λ o. o ≡ emitted (map (λ n. n.items) names.items) inits.now flow.now.vars (blocks_of flow.now)) }
{
    let code = duplicate(alloc, flow)?;
    let object = emit_cells(alloc, names, inits, flow, code)?;
    Ok(object)
}
