//! From a program to its flow.
ghost use Rattle.std.specs.Prelude.{◌≡◌, ◌<◌, ◌≤◌, length, IfOk};
ghost use Rattle.ft_scope.specs.Resolved.{program_need, program_weight};
ghost use Rattle.ft_scope.specs.ProgramOf.{program_of};
ghost use Rattle.ft_lower.specs.Cutting.{blocks_of};
ghost use Rattle.ft_lower.specs.Size.{PairsBelow, blocks_size};
ghost use Rattle.ft_lower.specs.Well.{IsWell};
ghost use Rattle.ft_lower.specs.Lowered.{lowered};
ghost use Rattle.ft_lower.specs.Lowers.{Lowers};

use crate::emission::emit_program;
use crate::flow::Flow;
use ft_isa::NoMemory;
use ft_scope::Prog;
use std::alloc::Global;

/// Returns the flow of a program, whose blocks are made from its statements and variables alone. It is well formed, with
/// fewer than 32 variables, no more instructions than the program weighs and no pair at or above the program's need; its
/// run over any initial words commits the outputs of the meaning of the program with these words, and ends when the
/// meaning ends.
///
/// Its recursion is no deeper than the nesting of statements and operators in the source.
pub fn lower(alloc: Global, prog: &Prog<'_>) -> Result<Flow, NoMemory>
    ensures vars { IfOk result (λ f. f.vars ≡ prog.now.vars) }
    ensures cells { IfOk result (λ f. f.cells ≡ length prog.now.inits.items) }
    ensures blocks { IfOk result (λ f. blocks_of f ≡ lowered (program_of prog.now)) }
    ensures few { IfOk result (λ f. f.vars < 32) }
    ensures well { IfOk result (λ f. IsWell f.vars f.cells (blocks_of f)) }
    ensures light { IfOk result (λ f. blocks_size (blocks_of f) ≤ program_weight (program_of prog.now)) }
    ensures pairs { IfOk result (λ f. PairsBelow (program_need (program_of prog.now)) (blocks_of f)) }
    ensures runs { IfOk result (λ f. Lowers (program_of prog.now) (blocks_of f)) }
{
    let steps = emit_program(alloc, prog)?;
    Ok(Flow {
        vars: prog.vars,
        cells: prog.inits.len() as u32,
        steps,
    })
}
