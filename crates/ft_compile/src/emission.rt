//! Emits the object of a flow.
ghost use Rattle.std.specs.Prelude.{◌≡◌, ◌≤◌, length, map, IfOk};
ghost use Rattle.ft_scope.specs.ProgramOf.{program_of};
ghost use Rattle.ft_lower.specs.Cutting.{blocks_of};
ghost use Rattle.ft_lower.specs.Size.{PairsBelow, blocks_size};
ghost use Rattle.ft_dup.specs.Images.{doubled, starts};
ghost use Rattle.ft_compile.specs.Emitted.{emitted};

use crate::cells::cells_of;
use crate::code_types::types_of;
use crate::notes::Notes;
use crate::placing::{blocks_from, place};
use crate::walking::note_flow;
use ft_dup::Doubled;
use ft_isa::NoMemory;
use ft_lower::Flow;
use ft_scope::Prog;
use ft_types::{Object, Table};
use std::alloc::{AllocError, Global};

/// The object of a flow over cells with these names and initial words, from the doubled code of the flow.
pub fn emit_cells(
    alloc: Global,
    names: Vec<Vec<u8>>,
    inits: &[u64],
    flow: &Flow,
    code: Doubled,
) -> Result<Object, AllocError>
    requires names { length names.items ≡ length inits.now }
    requires vars { flow.now.vars ≤ 32 }
    requires pairs { PairsBelow 32 (blocks_of flow.now) }
    requires short { blocks_size (blocks_of flow.now) ≤ 65536 }
    requires instrs { code.instrs.items ≡ doubled (blocks_of flow.now) }
    requires starts { code.starts.items ≡ starts (blocks_of flow.now) }
    ensures { IfOk result (λ o. o ≡ emitted (map (λ n. n.items) names.items) inits.now flow.now.vars (blocks_of flow.now)) }
{
    let cells = cells_of(alloc, names, inits)?;
    let notes = note_flow(alloc, flow, code.instrs.len())?;
    let types = types_of(alloc, flow.vars)?;
    let blocks = blocks_from(alloc, &code.starts)?;
    let Doubled { mut instrs, .. } = code;
    let Notes {
        nodes,
        rows,
        substs,
        ..
    } = notes;
    place(instrs.as_mut_slice(), substs.as_slice());
    Ok(Object {
        cells: Table::from_vec(cells),
        nodes: Table::from_vec(nodes),
        types: Table::from_vec(types),
        blocks: Table::from_vec(blocks),
        instrs: Table::from_vec(instrs),
        substs: Table::from_vec(rows),
        entry: 0,
    })
}

/// The object of a program, from its flow and the doubled code of the flow.
pub fn emit(alloc: Global, prog: &Prog<'_>, flow: &Flow, code: Doubled) -> Result<Object, NoMemory>
    requires names { length (program_of prog.now).names ≡ length prog.now.inits.items }
    requires vars { flow.now.vars ≤ 32 }
    requires pairs { PairsBelow 32 (blocks_of flow.now) }
    requires short { blocks_size (blocks_of flow.now) ≤ 65536 }
    requires instrs { code.instrs.items ≡ doubled (blocks_of flow.now) }
    requires starts { code.starts.items ≡ starts (blocks_of flow.now) }
    ensures { IfOk result (λ o. o ≡ emitted (program_of prog.now).names prog.now.inits.items flow.now.vars (blocks_of flow.now)) }
{
    let names = prog.cell_names(alloc)?;
    let object = emit_cells(alloc, names, &prog.inits, flow, code)?;
    Ok(object)
}
