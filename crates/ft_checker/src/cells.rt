//! The initial words of the cells.
ghost use Rattle.std.specs.Prelude.{◌≡◌};
ghost use Rattle.ft_typing.specs.Accepted.{cell_refusal, first_refusal};
ghost use Rattle.ft_types.specs.Spellable.{IsSpellable};
ghost use Rattle.ft_checker.specs.Judges.{Judges};

use crate::error::CheckError;
use ft_rules::has_type;
use ft_types::Program;

/// Ok if each cell's initial word has the cell's basic type; otherwise the lowest cell whose word does not.
pub fn check_cells<P: Program>(program: &P) -> Result<(), CheckError>
    requires { IsSpellable (P.object program.now) }
    ensures { Judges (first_refusal (cell_refusal (P.object program.now)) 0 (P.object program.now).cells) result }
{
    for k in 0..program.counts().cells {
        let cell = program.cell(k);
        let typed = has_type(program, cell.init, cell.basic);
        if !typed {
            return Err(CheckError::CellType { cell: k });
        }
    }
    Ok(())
}
