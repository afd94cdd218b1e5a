//! Declarations, and whole programs.
ghost use Rattle.std.specs.Prelude.{◌≡◌, ℕ, Option, ◌<◌, ◌≤◌, List, [], ◌∷◌, ◌++◌, length, Ok, IfOk, IfErr, OnOk, IfSome, OnSome, IfNone as OnNone};
ghost use Rattle.ft_syntax.specs.Plain.{none};
ghost use Rattle.ft_syntax.specs.Syntax.{Named, named, Declared, cell_or_array, var, declared, declared_list};
ghost use Rattle.ft_syntax.specs.TreeOf.{tree_from};
ghost use Rattle.ft_syntax.specs.Refusal.{Judged};
ghost use Rattle.ft_syntax.specs.Machine.{NamedStatements, decls as decls_at, cell_name, cell_is, cell_length, cell_close, cell_sized, cell_number, cell_end, var_name, var_end, stmts, top};
ghost use Rattle.ft_syntax.specs.View.{from, Refuses, RefusedBy, NoStatement, lexemes};

use crate::decl::Decl;
use crate::parser::Parser;
use crate::source_error::SourceError;
use crate::spot::Spot;
use crate::stmt::Stmt;
use ft_lexer::{Kind, Token};
use std::alloc::Global;

/// The declarations and the statements of a program.
pub type Parts<'a> = (Vec<Decl<'a>>, Vec<Stmt<Spot<'a>>>);

/// A cell, or an array with its length and the length's place.
fn cell_or_array<'a>(name: Spot<'a>, extent: Option<(u64, usize)>, init: u64) -> Decl<'a>
    ensures { declared result ≡ cell_or_array (named name.entry) extent init }
{
    match extent {
        None => Decl::Cell { name, init },
        Some((length, length_at)) => Decl::Array {
            name,
            length,
            length_at,
            init,
        },
    }
}

impl<'a, 't> Parser<'a, 't> {
    /// Takes the name of a declaration.
    fn name(&mut self) -> Result<Spot<'a>, SourceError>
        ensures cell_ok { IfOk result (λ n. (ds : List Declared) → from self.old (cell_name ds) ≡ from self.new (cell_is ds (named n))) }
        ensures var_ok { IfOk result (λ n. (ds : List Declared) → from self.old (var_name ds) ≡ from self.new (var_end ds (named n))) }
        ensures cell_err { IfErr result (λ e. (ds : List Declared) → Refuses e (from self.old (cell_name ds))) }
        ensures var_err { IfErr result (λ e. (ds : List Declared) → Refuses e (from self.old (var_name ds))) }
        ensures same { OnOk result (self.new.opened ≡ self.old.opened) }
        ensures shorter { OnOk result (length self.new.rest.now < length self.old.rest.now) }
    {
        let [t, rest @ ..] = self.rest else {
            return Err(SourceError::Syntax { at: self.end });
        };
        if t.kind != Kind::Name {
            return Err(SourceError::Syntax { at: t.at });
        }
        self.rest = rest;
        Ok(Spot {
            text: t.text,
            at: t.at,
        })
    }

    /// Takes the number that is the initial word of a cell or array.
    fn number(&mut self) -> Result<u64, SourceError>
        ensures ok { IfOk result (λ v. (ds : List Declared) (n : Named) (o : Option (ℕ × ℕ)) → from self.old (cell_number ds n o) ≡ from self.new (cell_end ds n o v)) }
        ensures err { IfErr result (λ e. (ds : List Declared) (n : Named) (o : Option (ℕ × ℕ)) → Refuses e (from self.old (cell_number ds n o))) }
        ensures same { OnOk result (self.new.opened ≡ self.old.opened) }
        ensures shorter { OnOk result (length self.new.rest.now < length self.old.rest.now) }
    {
        let [t, rest @ ..] = self.rest else {
            return Err(SourceError::Syntax { at: self.end });
        };
        if t.kind != Kind::Number {
            return Err(SourceError::Syntax { at: t.at });
        }
        self.rest = rest;
        Ok(t.value())
    }

    /// Takes the length of an array, and returns it with its place.
    fn length(&mut self) -> Result<(u64, usize), SourceError>
        ensures ok { IfOk result (λ l. (ds : List Declared) (n : Named) → from self.old (cell_length ds n) ≡ from self.new (cell_close ds n l)) }
        ensures err { IfErr result (λ e. (ds : List Declared) (n : Named) → Refuses e (from self.old (cell_length ds n))) }
        ensures same { OnOk result (self.new.opened ≡ self.old.opened) }
        ensures shorter { OnOk result (length self.new.rest.now < length self.old.rest.now) }
    {
        let [t, rest @ ..] = self.rest else {
            return Err(SourceError::Syntax { at: self.end });
        };
        if t.kind != Kind::Number {
            return Err(SourceError::Syntax { at: t.at });
        }
        self.rest = rest;
        Ok((t.value(), t.at))
    }

    /// Reads the length of an array, in brackets, if one comes next.
    fn extent(&mut self) -> Result<Option<(u64, usize)>, SourceError>
        ensures ok { IfOk result (λ o. (ds : List Declared) (n : Named) → from self.old (cell_is ds n) ≡ from self.new (cell_sized ds n o)) }
        ensures err { IfErr result (λ e. (ds : List Declared) (n : Named) → Refuses e (from self.old (cell_is ds n))) }
        ensures same { OnOk result (self.new.opened ≡ self.old.opened) }
        ensures shorter { OnOk result (length self.new.rest.now ≤ length self.old.rest.now) }
    {
        if !self.opens_index()? {
            return Ok(None);
        }
        let length = self.length()?;
        self.closes_length()?;
        Ok(Some(length))
    }

    /// Takes the `;` of a declaration.
    fn declared(&mut self) -> Result<(), SourceError>
        ensures cell_ok { OnOk result ((ds : List Declared) (n : Named) (o : Option (ℕ × ℕ)) (v : ℕ) → from self.old (cell_end ds n o v) ≡ from self.new (decls_at (ds ++ cell_or_array n o v ∷ []))) }
        ensures var_ok { OnOk result ((ds : List Declared) (n : Named) → from self.old (var_end ds n) ≡ from self.new (decls_at (ds ++ var n ∷ []))) }
        ensures cell_err { IfErr result (λ e. (ds : List Declared) (n : Named) (o : Option (ℕ × ℕ)) (v : ℕ) → Refuses e (from self.old (cell_end ds n o v))) }
        ensures var_err { IfErr result (λ e. (ds : List Declared) (n : Named) → Refuses e (from self.old (var_end ds n))) }
        ensures same { OnOk result (self.new.opened ≡ self.old.opened) }
        ensures shorter { OnOk result (length self.new.rest.now < length self.old.rest.now) }
    {
        let [t, rest @ ..] = self.rest else {
            return Err(SourceError::Syntax { at: self.end });
        };
        if t.kind != Kind::Semi {
            return Err(SourceError::Syntax { at: t.at });
        }
        self.ops = 0;
        self.rest = rest;
        Ok(())
    }

    /// Reads the rest of a cell's declaration.
    fn cell(&mut self) -> Result<Decl<'a>, SourceError>
        ensures ok { IfOk result (λ d. (ds : List Declared) → from self.old (cell_name ds) ≡ from self.new (decls_at (ds ++ declared d ∷ []))) }
        ensures err { IfErr result (λ e. (ds : List Declared) → Refuses e (from self.old (cell_name ds))) }
        ensures same { OnOk result (self.new.opened ≡ self.old.opened) }
        ensures shorter { OnOk result (length self.new.rest.now < length self.old.rest.now) }
    {
        let name = self.name()?;
        let extent = self.extent()?;
        self.equals()?;
        let init = self.number()?;
        self.declared()?;
        Ok(cell_or_array(name, extent, init))
    }

    /// Reads the rest of a variable's declaration.
    fn variable(&mut self) -> Result<Decl<'a>, SourceError>
        ensures ok { IfOk result (λ d. (ds : List Declared) → from self.old (var_name ds) ≡ from self.new (decls_at (ds ++ declared d ∷ []))) }
        ensures err { IfErr result (λ e. (ds : List Declared) → Refuses e (from self.old (var_name ds))) }
        ensures same { OnOk result (self.new.opened ≡ self.old.opened) }
        ensures shorter { OnOk result (length self.new.rest.now < length self.old.rest.now) }
    {
        let name = self.name()?;
        self.declared()?;
        Ok(Decl::Var { name })
    }

    /// Reads a declaration, if one begins here.
    fn declaration(&mut self) -> Result<Option<Decl<'a>>, SourceError>
        ensures ok { IfOk result (λ o. IfSome o (λ d. (ds : List Declared) → from self.old (decls_at ds) ≡ from self.new (decls_at (ds ++ declared d ∷ [])))) }
        ensures none { IfOk result (λ o. OnNone o (self.new ≡ self.old)) }
        ensures ended { IfOk result (λ o. OnNone o ((ds : List Declared) → from self.old (decls_at ds) ≡ from self.old (stmts none (top ds)))) }
        ensures err { IfErr result (λ e. (ds : List Declared) → Refuses e (from self.old (decls_at ds))) }
        ensures same { OnOk result (self.new.opened ≡ self.old.opened) }
        ensures shorter { IfOk result (λ o. OnSome o (length self.new.rest.now < length self.old.rest.now)) }
    {
        let [t, rest @ ..] = self.rest else {
            return Ok(None);
        };
        match t.kind {
            Kind::Cell => {
                self.rest = rest;
                Ok(Some(self.cell()?))
            }
            Kind::Var => {
                self.rest = rest;
                Ok(Some(self.variable()?))
            }
            _ => Ok(None),
        }
    }

    /// Reads all declarations.
    #[tactic(auto, using(crate::proofs::DeclaredLists::declared_empty, crate::proofs::DeclaredLists::declared_push))]
    fn declarations(&mut self, alloc: Global) -> Result<Vec<Decl<'a>>, SourceError>
        ensures ok { IfOk result (λ v. from self.old (decls_at []) ≡ from self.new (stmts none (top (declared_list v.items)))) }
        ensures err { IfErr result (λ e. Refuses e (from self.old (decls_at []))) }
        ensures same { OnOk result (self.new.opened ≡ self.old.opened) }
    {
        let mut all = Vec::new(alloc);
        while let Some(d) = self.declaration()? {
            let Ok(()) = all.push(d) else {
                return Err(SourceError::NoMemory);
            };
        }
        Ok(all)
    }

    /// Expects no more tokens.
    fn finish(&self) -> Result<(), SourceError>
        requires { NoStatement (lexemes self.now.rest.now) }
        ensures ok { OnOk result ((ds : List Declared) (ss : NamedStatements) → from self.now (stmts ss (top ds)) ≡ Ok (record { decls = ds; body = ss })) }
        ensures err { IfErr result (λ e. (ds : List Declared) (ss : NamedStatements) → Refuses e (from self.now (stmts ss (top ds)))) }
    {
        let [t, ..] = self.rest else {
            return Ok(());
        };
        Err(SourceError::Syntax { at: t.at })
    }

    /// Reads a whole program.
    fn program(&mut self, alloc: Global) -> Result<Parts<'a>, SourceError>
        requires { self.old.opened ≤ 100 }
        ensures ok { IfOk result (λ t. from self.old (decls_at []) ≡ Ok (tree_from t.0.items t.1.items)) }
        ensures err { IfErr result (λ e. Refuses e (from self.old (decls_at []))) }
    {
        let decls = self.declarations(alloc)?;
        let body = self.statements(alloc)?;
        self.finish()?;
        Ok((decls, body))
    }
}

/// The tree of these tokens, which are all the tokens of a text of this length.
pub fn parse_tokens<'a>(
    alloc: Global,
    tokens: &[Token<'a>],
    end: usize,
) -> Result<Parts<'a>, SourceError>
    ensures ok { IfOk result (λ t. Judged (lexemes tokens.now) end (Ok (tree_from t.0.items t.1.items))) }
    ensures err { IfErr result (λ e. RefusedBy (lexemes tokens.now) end e) }
{
    let mut parser = Parser {
        rest: tokens,
        opened: 0,
        ops: 0,
        end,
    };
    parser.program(alloc)
}
