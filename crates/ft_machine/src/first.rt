//! Where a run begins, and the cells before its first step.
ghost use Rattle.std.specs.Prelude.{◌≡◌, IfOk, length};
ghost use Rattle.ft_semantics.specs.State.{tabulate};
ghost use Rattle.ft_types.specs.Objects.{init_of, entry_address};
ghost use Rattle.ft_types.specs.Spellable.{IsSpellable};
ghost use Rattle.ft_isa.specs.Words.{cell_address};
ghost use Rattle.ft_machine.specs.Arrays.{cells_of};

use ft_isa::NoMemory;
use ft_types::Program;
use std::alloc::Global;

/// The code address at which a run begins: instruction i is at 1 + i.
pub fn entry_address<P: Program>(program: &P) -> u64
    requires { IsSpellable (P.object program.now) }
    ensures { result ≡ entry_address (P.object program.now) }
{
    1 + program.block(program.entry()).start as u64
}

/// The cells before the first step: the initial words, from the first cell's address on.
#[tactic(auto, using(ft_types::proofs::Counted::spellable_counted))]
pub fn first_cells<P: Program>(alloc: Global, program: &P) -> Result<Vec<u64>, NoMemory>
    requires { IsSpellable (P.object program.now) }
    ensures { IfOk result (λ m. cells_of m.items
        ≡ tabulate (length (P.object program.now).cells) cell_address (init_of (P.object program.now))) }
{
    let mut words = Vec::new(alloc);
    for k in 0..program.counts().cells {
        if words.push(program.cell(k).init).is_err() {
            return Err(NoMemory);
        }
    }
    Ok(words)
}
