//! The parser's state and its limits.
ghost use Rattle.std.specs.Prelude.{◌≡◌, ℕ, ◌<◌, List, Option, length, IfErr, OnOk};
ghost use Rattle.ft_syntax.specs.Syntax.{Named, Declared};
ghost use Rattle.ft_syntax.specs.Machine.{NamedExpression, NamedStatements, Block, cell_sized, cell_number, assign_is, value_of, want, empty};

use crate::source_error::SourceError;
use ft_lexer::{Kind, Token};

/// How many brackets and braces may be open at once.
pub const OPEN_LIMIT: usize = 100;
/// How many operators one assignment, its index included, or one test may have.
pub const OPERATOR_LIMIT: usize = 200;

/// The tokens that are left, how many brackets and braces are open, how many operators this
/// statement or test has so far, and the length of the text.
#[derive(Drop)]
pub struct Parser<'a, 't> {
    pub rest: &'t [Token<'a>],
    pub opened: usize,
    pub ops: usize,
    pub end: usize,
}

impl Parser<'_, '_> {
    ghost use Rattle.ft_syntax.specs.View.{from, Refuses};

    /// Takes the `=` that has to come next, in a declaration or an assignment.
    pub fn equals(&mut self) -> Result<(), SourceError>
        ensures cell_ok { OnOk result ((ds : List Declared) (n : Named) (o : Option (ℕ × ℕ)) → from self.old (cell_sized ds n o) ≡ from self.new (cell_number ds n o)) }
        ensures assign_ok { OnOk result ((n : Named) (o : Option NamedExpression) (ss : NamedStatements) (b : Block) → from self.old (assign_is n o ss b) ≡ from self.new (want empty (value_of n o ss b))) }
        ensures cell_err { IfErr result (λ e. (ds : List Declared) (n : Named) (o : Option (ℕ × ℕ)) → Refuses e (from self.old (cell_sized ds n o))) }
        ensures assign_err { IfErr result (λ e. (n : Named) (o : Option NamedExpression) (ss : NamedStatements) (b : Block) → Refuses e (from self.old (assign_is n o ss b))) }
        ensures same { OnOk result (self.new.opened ≡ self.old.opened) }
        ensures shorter { OnOk result (length self.new.rest.now < length self.old.rest.now) }
    {
        let [t, rest @ ..] = self.rest else {
            return Err(SourceError::Syntax { at: self.end });
        };
        if t.kind != Kind::Assign {
            return Err(SourceError::Syntax { at: t.at });
        }
        self.rest = rest;
        Ok(())
    }
}
