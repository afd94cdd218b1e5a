//! Laws of the definitions, each the contract of a function that does nothing.
ghost use Rattle.std.specs.Prelude.{◌≡◌, ℕ, List, Result};
ghost use Rattle.ft_syntax.specs.declared.source_error.SourceError as errors;
ghost use Rattle.ft_scope.specs.Resolved.{Program};
ghost use Rattle.ft_scope.specs.Outcome.{IsOutcome, IsProgramOf};
ghost use Rattle.ft_scope.specs.Proper.{IsProper};

use ft_syntax::one_text_has_one_answer;

/// A text has exactly one outcome: one program, or one refusal.
pub fn one_text_has_one_outcome()
    ensures one { (text : List ℕ) (r s : Result Program errors.SourceError) → IsOutcome text r → IsOutcome text s → r ≡ s }
    ensures some { (text : List ℕ) → (r : Result Program errors.SourceError) × IsOutcome text r }
{
    one_text_has_one_answer();
}

/// In a text's program, the cells have different names, of at most 38 bytes, and one initial word each; each name in a
/// statement refers to an existing cell or variable; and the program is within the limits.
pub fn programs_are_proper()
    ensures { (text : List ℕ) (p : Program) → IsProgramOf text p → IsProper p }
{}
