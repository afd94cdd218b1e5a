//! Brackets of indices and of lengths.
ghost use Rattle.std.specs.Prelude.{◌≡◌, ℕ, ◌+◌, ◌<◌, ◌≤◌, List, length, None, Some, IfOk, IfErr, OnOk};
ghost use Rattle.std.specs.Bool.{OnTrue, OnFalse};
ghost use Rattle.ft_syntax.specs.Plain.{name as name_of, indexed};
ghost use Rattle.ft_syntax.specs.Syntax.{Named, Declared};
ghost use Rattle.ft_syntax.specs.Machine.{NamedExpression, NamedStatements, Waiting, Context, Block, want, had, had_name, empty, index_of, target_of, target_is, assign_is, cell_is, cell_length, cell_close, cell_sized};
ghost use Rattle.ft_syntax.specs.View.{from, Refuses, NoOperator, lexemes};

use crate::parser::{OPEN_LIMIT, Parser};
use crate::source_error::SourceError;
use ft_lexer::Kind;

impl Parser<'_, '_> {
    /// Takes the bracket after a name, if one comes next.
    pub fn opens_index(&mut self) -> Result<bool, SourceError>
        ensures name_open { IfOk result (λ o. OnTrue o ((p : Waiting) (n : Named) (x : Context) → from self.old (had_name p n x) ≡ from self.new (want empty (index_of p n x)))) }
        ensures target_open { IfOk result (λ o. OnTrue o ((n : Named) (ss : NamedStatements) (b : Block) → from self.old (target_is n ss b) ≡ from self.new (want empty (target_of n ss b)))) }
        ensures cell_open { IfOk result (λ o. OnTrue o ((ds : List Declared) (n : Named) → from self.old (cell_is ds n) ≡ from self.new (cell_length ds n))) }
        ensures more { IfOk result (λ o. OnTrue o (self.new.opened ≡ self.old.opened + 1)) }
        ensures within { IfOk result (λ o. OnTrue o (self.new.opened ≤ 100)) }
        ensures shorter { IfOk result (λ o. OnTrue o (length self.new.rest.now < length self.old.rest.now)) }
        ensures same { IfOk result (λ o. OnFalse o (self.new ≡ self.old)) }
        ensures name_only { IfOk result (λ o. OnFalse o ((p : Waiting) (n : Named) (x : Context) → from self.old (had_name p n x) ≡ from self.old (had p (name_of n) x))) }
        ensures target_only { IfOk result (λ o. OnFalse o ((n : Named) (ss : NamedStatements) (b : Block) → from self.old (target_is n ss b) ≡ from self.old (assign_is n None ss b))) }
        ensures cell_only { IfOk result (λ o. OnFalse o ((ds : List Declared) (n : Named) → from self.old (cell_is ds n) ≡ from self.old (cell_sized ds n None))) }
        ensures name_err { IfErr result (λ e. (p : Waiting) (n : Named) (x : Context) → Refuses e (from self.old (had_name p n x))) }
        ensures target_err { IfErr result (λ e. (n : Named) (ss : NamedStatements) (b : Block) → Refuses e (from self.old (target_is n ss b))) }
        ensures cell_err { IfErr result (λ e. (ds : List Declared) (n : Named) → Refuses e (from self.old (cell_is ds n))) }
    {
        let [t, rest @ ..] = self.rest else {
            return Ok(false);
        };
        match t.kind {
            Kind::LBracket => {
                if self.opened >= OPEN_LIMIT {
                    return Err(SourceError::Deep { at: t.at });
                }
                self.opened += 1;
                self.rest = rest;
                Ok(true)
            }
            _ => Ok(false),
        }
    }

    /// Takes the bracket that has to come next, after an index.
    pub fn closes_index(&mut self) -> Result<(), SourceError>
        requires some_open { 0 < self.old.opened }
        requires ended { NoOperator (lexemes self.old.rest.now) }
        ensures name_ok { OnOk result ((p : Waiting) (n : Named) (e : NamedExpression) (x : Context) → from self.old (had empty e (index_of p n x)) ≡ from self.new (had p (indexed n e) x)) }
        ensures target_ok { OnOk result ((n : Named) (e : NamedExpression) (ss : NamedStatements) (b : Block) → from self.old (had empty e (target_of n ss b)) ≡ from self.new (assign_is n (Some e) ss b)) }
        ensures name_err { IfErr result (λ f. (p : Waiting) (n : Named) (e : NamedExpression) (x : Context) → Refuses f (from self.old (had empty e (index_of p n x)))) }
        ensures target_err { IfErr result (λ f. (n : Named) (e : NamedExpression) (ss : NamedStatements) (b : Block) → Refuses f (from self.old (had empty e (target_of n ss b)))) }
        ensures less { OnOk result (self.new.opened + 1 ≡ self.old.opened) }
        ensures shorter { OnOk result (length self.new.rest.now < length self.old.rest.now) }
    {
        let [t, rest @ ..] = self.rest else {
            return Err(SourceError::Syntax { at: self.end });
        };
        if t.kind != Kind::RBracket {
            return Err(SourceError::Syntax { at: t.at });
        }
        self.opened -= 1;
        self.rest = rest;
        Ok(())
    }

    /// Takes the bracket that has to come next, after a length.
    pub fn closes_length(&mut self) -> Result<(), SourceError>
        requires some_open { 0 < self.old.opened }
        ensures ok { OnOk result ((ds : List Declared) (n : Named) (l : ℕ × ℕ) → from self.old (cell_close ds n l) ≡ from self.new (cell_sized ds n (Some l))) }
        ensures err { IfErr result (λ f. (ds : List Declared) (n : Named) (l : ℕ × ℕ) → Refuses f (from self.old (cell_close ds n l))) }
        ensures less { OnOk result (self.new.opened + 1 ≡ self.old.opened) }
        ensures shorter { OnOk result (length self.new.rest.now < length self.old.rest.now) }
    {
        let [t, rest @ ..] = self.rest else {
            return Err(SourceError::Syntax { at: self.end });
        };
        if t.kind != Kind::RBracket {
            return Err(SourceError::Syntax { at: t.at });
        }
        self.opened -= 1;
        self.rest = rest;
        Ok(())
    }
}
