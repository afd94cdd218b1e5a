//! Statements.
ghost use Rattle.std.specs.Prelude.{◌≡◌, ◌+◌, ◌<◌, ◌≤◌, length, IfOk, IfErr, OnOk, IfSome, OnSome, IfNone as OnNone, Option, option_map};
ghost use Rattle.std.specs.Bool.{OnTrue, OnFalse};
ghost use Rattle.ft_syntax.specs.Plain.{none, assigning, loop, choose, follow, plain_statement, plain_list};
ghost use Rattle.ft_syntax.specs.Syntax.{named, Named};
ghost use Rattle.ft_syntax.specs.Machine.{NamedExpression, NamedStatements, Block, want, had, empty, loop_open, choice_open, loop_test, choice_test, loop_brace, choice_brace, else_brace, may_else, stmts, in_loop, in_yes, in_no, target_is, assign_is, value_of};
ghost use Rattle.ft_syntax.specs.View.{from, expression, Refuses, NoOperator, NoStatement, lexemes};

use crate::expr::Expr;
use crate::parser::{OPEN_LIMIT, Parser};
use crate::source_error::SourceError;
use crate::spot::Spot;
use crate::stmt::Stmt;
use ft_lexer::Kind;
use std::alloc::Global;

/// An assignment to a name, which may have an index.
#[tactic(auto, using(crate::proofs::PlainForms::assign_form, crate::proofs::PlainForms::assign_at_form))]
fn assigned<'a>(
    to: Spot<'a>,
    index: Option<Expr<Spot<'a>>>,
    value: Expr<Spot<'a>>,
) -> Stmt<Spot<'a>>
    ensures { plain_statement named result none ≡ assigning (named to.entry) (option_map expression index.entry) (expression value.entry) none }
{
    match index {
        None => Stmt::Assign { to, value },
        Some(index) => Stmt::AssignAt { to, index, value },
    }
}

impl<'a, 't> Parser<'a, 't> {
    /// Takes the bracket before a test.
    fn bracket(&mut self) -> Result<(), SourceError>
        ensures loop_ok { OnOk result ((ss : NamedStatements) (b : Block) → from self.old (loop_open ss b) ≡ from self.new (want empty (loop_test ss b))) }
        ensures choice_ok { OnOk result ((ss : NamedStatements) (b : Block) → from self.old (choice_open ss b) ≡ from self.new (want empty (choice_test ss b))) }
        ensures loop_err { IfErr result (λ e. (ss : NamedStatements) (b : Block) → Refuses e (from self.old (loop_open ss b))) }
        ensures choice_err { IfErr result (λ e. (ss : NamedStatements) (b : Block) → Refuses e (from self.old (choice_open ss b))) }
        ensures more { OnOk result (self.new.opened ≡ self.old.opened + 1) }
        ensures within { OnOk result (self.new.opened ≤ 100) }
        ensures shorter { OnOk result (length self.new.rest.now < length self.old.rest.now) }
    {
        let [t, rest @ ..] = self.rest else {
            return Err(SourceError::Syntax { at: self.end });
        };
        match t.kind {
            Kind::LParen => {
                if self.opened >= OPEN_LIMIT {
                    return Err(SourceError::Deep { at: t.at });
                }
                self.opened += 1;
                self.rest = rest;
                Ok(())
            }
            _ => Err(SourceError::Syntax { at: t.at }),
        }
    }

    /// Takes the brace before a body.
    fn brace(&mut self) -> Result<(), SourceError>
        ensures loop_ok { OnOk result ((e : NamedExpression) (ss : NamedStatements) (b : Block) → from self.old (loop_brace e ss b) ≡ from self.new (stmts none (in_loop e ss b))) }
        ensures yes_ok { OnOk result ((e : NamedExpression) (ss : NamedStatements) (b : Block) → from self.old (choice_brace e ss b) ≡ from self.new (stmts none (in_yes e ss b))) }
        ensures no_ok { OnOk result ((e : NamedExpression) (first ss : NamedStatements) (b : Block) → from self.old (else_brace e first ss b) ≡ from self.new (stmts none (in_no e first ss b))) }
        ensures loop_err { IfErr result (λ f. (e : NamedExpression) (ss : NamedStatements) (b : Block) → Refuses f (from self.old (loop_brace e ss b))) }
        ensures yes_err { IfErr result (λ f. (e : NamedExpression) (ss : NamedStatements) (b : Block) → Refuses f (from self.old (choice_brace e ss b))) }
        ensures no_err { IfErr result (λ f. (e : NamedExpression) (first ss : NamedStatements) (b : Block) → Refuses f (from self.old (else_brace e first ss b))) }
        ensures more { OnOk result (self.new.opened ≡ self.old.opened + 1) }
        ensures within { OnOk result (self.new.opened ≤ 100) }
        ensures shorter { OnOk result (length self.new.rest.now < length self.old.rest.now) }
    {
        let [t, rest @ ..] = self.rest else {
            return Err(SourceError::Syntax { at: self.end });
        };
        match t.kind {
            Kind::LBrace => {
                if self.opened >= OPEN_LIMIT {
                    return Err(SourceError::Deep { at: t.at });
                }
                self.opened += 1;
                self.ops = 0;
                self.rest = rest;
                Ok(())
            }
            _ => Err(SourceError::Syntax { at: t.at }),
        }
    }

    /// Reads a test in its brackets, and the brace after it.
    fn head(&mut self, alloc: Global) -> Result<Expr<Spot<'a>>, SourceError>
        ensures loop_ok { IfOk result (λ e. (ss : NamedStatements) (b : Block) → from self.old (loop_open ss b) ≡ from self.new (stmts none (in_loop (expression e) ss b))) }
        ensures yes_ok { IfOk result (λ e. (ss : NamedStatements) (b : Block) → from self.old (choice_open ss b) ≡ from self.new (stmts none (in_yes (expression e) ss b))) }
        ensures loop_err { IfErr result (λ f. (ss : NamedStatements) (b : Block) → Refuses f (from self.old (loop_open ss b))) }
        ensures yes_err { IfErr result (λ f. (ss : NamedStatements) (b : Block) → Refuses f (from self.old (choice_open ss b))) }
        ensures more { OnOk result (self.new.opened ≡ self.old.opened + 1) }
        ensures within { OnOk result (self.new.opened ≤ 100) }
        ensures shorter { OnOk result (length self.new.rest.now < length self.old.rest.now) }
    {
        self.bracket()?;
        let test = self.expr(alloc)?;
        self.closing()?;
        self.brace()?;
        Ok(test)
    }

    /// Takes the `;` of an assignment.
    fn semi(&mut self) -> Result<(), SourceError>
        requires { NoOperator (lexemes self.old.rest.now) }
        ensures ok { OnOk result ((n : Named) (o : Option NamedExpression) (e : NamedExpression) (ss : NamedStatements) (b : Block) → from self.old (had empty e (value_of n o ss b)) ≡ from self.new (stmts (follow ss (assigning n o e none)) b)) }
        ensures err { IfErr result (λ f. (n : Named) (o : Option NamedExpression) (e : NamedExpression) (ss : NamedStatements) (b : Block) → Refuses f (from self.old (had empty e (value_of n o ss b)))) }
        ensures same { OnOk result (self.new.opened ≡ self.old.opened) }
        ensures shorter { OnOk result (length self.new.rest.now < length self.old.rest.now) }
    {
        let [t, rest @ ..] = self.rest else {
            return Err(SourceError::Syntax { at: self.end });
        };
        if t.kind != Kind::Semi {
            return Err(SourceError::Syntax { at: t.at });
        }
        self.ops = 0;
        self.rest = rest;
        Ok(())
    }

    /// Reads the index of the name assigned to, if one comes next.
    fn target(&mut self, alloc: Global) -> Result<Option<Expr<Spot<'a>>>, SourceError>
        requires { self.old.opened ≤ 100 }
        ensures ok { IfOk result (λ o. (n : Named) (ss : NamedStatements) (b : Block) → from self.old (target_is n ss b) ≡ from self.new (assign_is n (option_map expression o) ss b)) }
        ensures err { IfErr result (λ f. (n : Named) (ss : NamedStatements) (b : Block) → Refuses f (from self.old (target_is n ss b))) }
        ensures same { OnOk result (self.new.opened ≡ self.old.opened) }
        ensures shorter { OnOk result (length self.new.rest.now ≤ length self.old.rest.now) }
    {
        if !self.opens_index()? {
            return Ok(None);
        }
        let index = self.expr(alloc)?;
        self.closes_index()?;
        Ok(Some(index))
    }

    /// Reads the rest of an assignment.
    fn assignment(&mut self, alloc: Global, to: Spot<'a>) -> Result<Stmt<Spot<'a>>, SourceError>
        requires { self.old.opened ≤ 100 }
        ensures ok { IfOk result (λ s. (ss : NamedStatements) (b : Block) → from self.old (target_is (named to.entry) ss b) ≡ from self.new (stmts (follow ss (plain_statement named s none)) b)) }
        ensures err { IfErr result (λ f. (ss : NamedStatements) (b : Block) → Refuses f (from self.old (target_is (named to.entry) ss b))) }
        ensures same { OnOk result (self.new.opened ≡ self.old.opened) }
        ensures shorter { OnOk result (length self.new.rest.now < length self.old.rest.now) }
    {
        let index = self.target(alloc)?;
        self.equals()?;
        let value = self.expr(alloc)?;
        self.semi()?;
        Ok(assigned(to, index, value))
    }

    /// Takes the brace after a body.
    fn body_end(&mut self) -> Result<(), SourceError>
        requires some_open { 0 < self.old.opened }
        requires ended { NoStatement (lexemes self.old.rest.now) }
        ensures loop_ok { OnOk result ((e : NamedExpression) (ss before : NamedStatements) (b : Block) → from self.old (stmts ss (in_loop e before b)) ≡ from self.new (stmts (follow before (loop e ss none)) b)) }
        ensures yes_ok { OnOk result ((e : NamedExpression) (ss before : NamedStatements) (b : Block) → from self.old (stmts ss (in_yes e before b)) ≡ from self.new (may_else e ss before b)) }
        ensures no_ok { OnOk result ((e : NamedExpression) (first ss before : NamedStatements) (b : Block) → from self.old (stmts ss (in_no e first before b)) ≡ from self.new (stmts (follow before (choose e first ss none)) b)) }
        ensures loop_err { IfErr result (λ f. (e : NamedExpression) (ss before : NamedStatements) (b : Block) → Refuses f (from self.old (stmts ss (in_loop e before b)))) }
        ensures yes_err { IfErr result (λ f. (e : NamedExpression) (ss before : NamedStatements) (b : Block) → Refuses f (from self.old (stmts ss (in_yes e before b)))) }
        ensures no_err { IfErr result (λ f. (e : NamedExpression) (first ss before : NamedStatements) (b : Block) → Refuses f (from self.old (stmts ss (in_no e first before b)))) }
        ensures less { OnOk result (self.new.opened + 1 ≡ self.old.opened) }
        ensures shorter { OnOk result (length self.new.rest.now < length self.old.rest.now) }
    {
        let [t, rest @ ..] = self.rest else {
            return Err(SourceError::Syntax { at: self.end });
        };
        if t.kind != Kind::RBrace {
            return Err(SourceError::Syntax { at: t.at });
        }
        self.opened -= 1;
        self.ops = 0;
        self.rest = rest;
        Ok(())
    }

    /// Takes an `else`, if it comes next.
    fn takes_else(&mut self) -> bool
        ensures taken { OnTrue result ((e : NamedExpression) (first ss : NamedStatements) (b : Block) → from self.old (may_else e first ss b) ≡ from self.new (else_brace e first ss b)) }
        ensures shorter { OnTrue result (length self.new.rest.now < length self.old.rest.now) }
        ensures same { self.new.opened ≡ self.old.opened }
        ensures none { OnFalse result (self.new ≡ self.old) }
        ensures ended { OnFalse result ((e : NamedExpression) (first ss : NamedStatements) (b : Block) → from self.old (may_else e first ss b) ≡ from self.old (stmts (follow ss (choose e first none none)) b)) }
    {
        let [t, rest @ ..] = self.rest else {
            return false;
        };
        match t.kind {
            Kind::Else => {
                self.rest = rest;
                true
            }
            _ => false,
        }
    }

    /// How much room to make for the statements that begin here: none before a brace that closes, otherwise for one.
    /// A list makes more as it grows.
    fn room(&self) -> usize
        ensures { result ≤ 1 }
    {
        let [t, ..] = self.rest else {
            return 0;
        };
        match t.kind {
            Kind::RBrace => 0,
            _ => 1,
        }
    }

    /// Reads the longest list of statements that begins here.
    #[tactic(auto, using(crate::proofs::PlainForms::while_form, crate::proofs::PlainForms::if_form, crate::proofs::PlainForms::list_push, crate::proofs::PlainForms::list_empty))]
    #[cycle(statement)]
    pub fn statements(&mut self, alloc: Global) -> Result<Vec<Stmt<Spot<'a>>>, SourceError>
        requires { self.old.opened ≤ 100 }
        ensures ok { IfOk result (λ v. (b : Block) → from self.old (stmts none b) ≡ from self.new (stmts (plain_list named v.items) b)) }
        ensures ended { OnOk result (NoStatement (lexemes self.new.rest.now)) }
        ensures err { IfErr result (λ f. (b : Block) → Refuses f (from self.old (stmts none b))) }
        ensures same { OnOk result (self.new.opened ≡ self.old.opened) }
        ensures shorter { OnOk result (length self.new.rest.now ≤ length self.old.rest.now) }
    {
        let Ok(mut all) = Vec::with_capacity(alloc, self.room()) else {
            return Err(SourceError::NoMemory);
        };
        while let Some(s) = self.statement(alloc)? {
            let Ok(()) = all.push(s) else {
                return Err(SourceError::NoMemory);
            };
        }
        Ok(all)
    }

    /// Reads a body and the brace that closes it.
    #[tactic(auto, using(crate::proofs::PlainForms::while_form, crate::proofs::PlainForms::if_form, crate::proofs::PlainForms::list_push, crate::proofs::PlainForms::list_empty))]
    #[cycle(statement)]
    fn body(&mut self, alloc: Global) -> Result<Vec<Stmt<Spot<'a>>>, SourceError>
        requires some_open { 0 < self.old.opened }
        requires within { self.old.opened ≤ 100 }
        ensures loop_ok { IfOk result (λ v. (e : NamedExpression) (before : NamedStatements) (b : Block) → from self.old (stmts none (in_loop e before b)) ≡ from self.new (stmts (follow before (loop e (plain_list named v.items) none)) b)) }
        ensures yes_ok { IfOk result (λ v. (e : NamedExpression) (before : NamedStatements) (b : Block) → from self.old (stmts none (in_yes e before b)) ≡ from self.new (may_else e (plain_list named v.items) before b)) }
        ensures no_ok { IfOk result (λ v. (e : NamedExpression) (first before : NamedStatements) (b : Block) → from self.old (stmts none (in_no e first before b)) ≡ from self.new (stmts (follow before (choose e first (plain_list named v.items) none)) b)) }
        ensures loop_err { IfErr result (λ f. (e : NamedExpression) (before : NamedStatements) (b : Block) → Refuses f (from self.old (stmts none (in_loop e before b)))) }
        ensures yes_err { IfErr result (λ f. (e : NamedExpression) (before : NamedStatements) (b : Block) → Refuses f (from self.old (stmts none (in_yes e before b)))) }
        ensures no_err { IfErr result (λ f. (e : NamedExpression) (first before : NamedStatements) (b : Block) → Refuses f (from self.old (stmts none (in_no e first before b)))) }
        ensures less { OnOk result (self.new.opened + 1 ≡ self.old.opened) }
        ensures shorter { OnOk result (length self.new.rest.now < length self.old.rest.now) }
    {
        let all = self.statements(alloc)?;
        self.body_end()?;
        Ok(all)
    }

    /// Reads the `else` side of an `if`, if one comes next.
    #[tactic(auto, using(crate::proofs::PlainForms::while_form, crate::proofs::PlainForms::if_form, crate::proofs::PlainForms::list_push, crate::proofs::PlainForms::list_empty))]
    #[cycle(statement)]
    fn otherwise(&mut self, alloc: Global) -> Result<Vec<Stmt<Spot<'a>>>, SourceError>
        requires { self.old.opened ≤ 100 }
        ensures ok { IfOk result (λ v. (e : NamedExpression) (first ss : NamedStatements) (b : Block) → from self.old (may_else e first ss b) ≡ from self.new (stmts (follow ss (choose e first (plain_list named v.items) none)) b)) }
        ensures err { IfErr result (λ f. (e : NamedExpression) (first ss : NamedStatements) (b : Block) → Refuses f (from self.old (may_else e first ss b))) }
        ensures same { OnOk result (self.new.opened ≡ self.old.opened) }
        ensures shorter { OnOk result (length self.new.rest.now ≤ length self.old.rest.now) }
    {
        if !self.takes_else() {
            return Ok(Vec::new(alloc));
        }
        self.brace()?;
        let all = self.body(alloc)?;
        Ok(all)
    }

    /// Reads the rest of a loop.
    #[tactic(auto, using(crate::proofs::PlainForms::while_form, crate::proofs::PlainForms::if_form, crate::proofs::PlainForms::list_push, crate::proofs::PlainForms::list_empty))]
    #[cycle(statement)]
    fn repetition(&mut self, alloc: Global) -> Result<Stmt<Spot<'a>>, SourceError>
        requires { self.old.opened ≤ 100 }
        ensures ok { IfOk result (λ s. (ss : NamedStatements) (b : Block) → from self.old (loop_open ss b) ≡ from self.new (stmts (follow ss (plain_statement named s none)) b)) }
        ensures err { IfErr result (λ f. (ss : NamedStatements) (b : Block) → Refuses f (from self.old (loop_open ss b))) }
        ensures same { OnOk result (self.new.opened ≡ self.old.opened) }
        ensures shorter { OnOk result (length self.new.rest.now < length self.old.rest.now) }
    {
        let test = self.head(alloc)?;
        let body = self.body(alloc)?;
        Ok(Stmt::While { test, body })
    }

    /// Reads the rest of an `if`.
    #[tactic(auto, using(crate::proofs::PlainForms::while_form, crate::proofs::PlainForms::if_form, crate::proofs::PlainForms::list_push, crate::proofs::PlainForms::list_empty))]
    #[cycle(statement)]
    fn decision(&mut self, alloc: Global) -> Result<Stmt<Spot<'a>>, SourceError>
        requires { self.old.opened ≤ 100 }
        ensures ok { IfOk result (λ s. (ss : NamedStatements) (b : Block) → from self.old (choice_open ss b) ≡ from self.new (stmts (follow ss (plain_statement named s none)) b)) }
        ensures err { IfErr result (λ f. (ss : NamedStatements) (b : Block) → Refuses f (from self.old (choice_open ss b))) }
        ensures same { OnOk result (self.new.opened ≡ self.old.opened) }
        ensures shorter { OnOk result (length self.new.rest.now < length self.old.rest.now) }
    {
        let test = self.head(alloc)?;
        let yes = self.body(alloc)?;
        let no = self.otherwise(alloc)?;
        Ok(Stmt::If { test, yes, no })
    }

    /// Reads a statement, if one begins here.
    #[tactic(auto, using(crate::proofs::PlainForms::while_form, crate::proofs::PlainForms::if_form, crate::proofs::PlainForms::list_push, crate::proofs::PlainForms::list_empty))]
    #[cycle(statement)]
    fn statement(&mut self, alloc: Global) -> Result<Option<Stmt<Spot<'a>>>, SourceError>
        requires { self.old.opened ≤ 100 }
        ensures ok { IfOk result (λ o. IfSome o (λ s. (ss : NamedStatements) (b : Block) → from self.old (stmts ss b) ≡ from self.new (stmts (follow ss (plain_statement named s none)) b))) }
        ensures none { IfOk result (λ o. OnNone o ((self.new ≡ self.old) × NoStatement (lexemes self.old.rest.now))) }
        ensures err { IfErr result (λ f. (ss : NamedStatements) (b : Block) → Refuses f (from self.old (stmts ss b))) }
        ensures same { OnOk result (self.new.opened ≡ self.old.opened) }
        ensures shorter { IfOk result (λ o. OnSome o (length self.new.rest.now < length self.old.rest.now)) }
    {
        let [t, rest @ ..] = self.rest else {
            return Ok(None);
        };
        match t.kind {
            Kind::Name => {
                self.rest = rest;
                let to = Spot {
                    text: t.text,
                    at: t.at,
                };
                Ok(Some(self.assignment(alloc, to)?))
            }
            Kind::While => {
                self.ops = 0;
                self.rest = rest;
                Ok(Some(self.repetition(alloc)?))
            }
            Kind::If => {
                self.ops = 0;
                self.rest = rest;
                Ok(Some(self.decision(alloc)?))
            }
            _ => Ok(None),
        }
    }
}
