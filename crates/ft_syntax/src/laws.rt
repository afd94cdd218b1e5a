//! Laws of the definitions, each the contract of a function that does nothing.
ghost use Rattle.std.specs.Prelude.{◌≡◌, ℕ, List, Result};
ghost use Rattle.ft_lexer.specs.Scan.{Lexeme};
ghost use Rattle.ft_syntax.specs.Syntax.{SyntaxTree};
ghost use Rattle.ft_syntax.specs.Grammar.{Derives};
ghost use Rattle.ft_syntax.specs.Refusal.{IsAnswer};
ghost use Rattle.ft_syntax.specs.declared.source_error.SourceError as errors;

/// The grammar derives at most one tree from a list of lexemes.
pub fn one_list_has_one_tree()
    ensures { (ts : List Lexeme) (t u : SyntaxTree) → Derives ts t → Derives ts u → t ≡ u }
{}

/// A text has exactly one outcome: one tree, or one refusal.
pub fn one_text_has_one_answer()
    ensures one { (text : List ℕ) (r s : Result SyntaxTree errors.SourceError) → IsAnswer text r → IsAnswer text s → r ≡ s }
    ensures some { (text : List ℕ) → (r : Result SyntaxTree errors.SourceError) × IsAnswer text r }
{}
