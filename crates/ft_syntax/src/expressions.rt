//! Expressions, read by one loop for each level of brackets.
ghost use Rattle.std.specs.Prelude.{◌≡◌, ◌+◌, ◌<◌, ◌≤◌, length, Some, IfOk, IfErr, OnOk, IfSome, OnSome, IfNone as OnNone};
ghost use Rattle.ft_syntax.specs.Plain.{indexed as indexed_of};
ghost use Rattle.ft_syntax.specs.Syntax.{named};
ghost use Rattle.ft_syntax.specs.Machine.{NamedExpression, NamedStatements, Waiting, Context, Block, want, had, had_name, empty, paren, loop_test, choice_test, loop_brace, choice_brace, push};
ghost use Rattle.ft_syntax.specs.View.{from, expression, waiting, Refuses, NoOperator, lexemes, kind_of};

use crate::expr::Expr;
use crate::operator::Operator;
use crate::parser::{OPEN_LIMIT, OPERATOR_LIMIT, Parser};
use crate::pending::Pending;
use crate::source_error::SourceError;
use crate::spot::Spot;
use ft_lexer::Kind;
use std::alloc::Global;

/// A name with an index.
fn indexed<'a>(
    alloc: Global,
    name: Spot<'a>,
    index: Expr<Spot<'a>>,
) -> Result<Expr<Spot<'a>>, SourceError>
    ensures ok { IfOk result (λ e. expression e ≡ indexed_of (named name.entry) (expression index.entry)) }
    ensures err { IfErr result (λ e. e ≡ SourceError.NoMemory) }
{
    let Ok(index) = Box::new(alloc, index) else {
        return Err(SourceError::NoMemory);
    };
    Ok(Expr::At { name, index })
}

impl<'a, 't> Parser<'a, 't> {
    /// Takes the operator that comes next, if one does.
    fn operator(&mut self) -> Result<Option<Operator>, SourceError>
        ensures taken { IfOk result (λ o. IfSome o (λ o. (p q : Waiting) (a : NamedExpression) (x : Context) → push (kind_of o) p a ≡ Some q → from self.old (had p a x) ≡ from self.new (want q x))) }
        ensures shorter { IfOk result (λ o. OnSome o (length self.new.rest.now < length self.old.rest.now)) }
        ensures none { IfOk result (λ o. OnNone o ((self.new ≡ self.old) × NoOperator (lexemes self.old.rest.now))) }
        ensures same { OnOk result (self.new.opened ≡ self.old.opened) }
        ensures err { IfErr result (λ e. (p : Waiting) (a : NamedExpression) (x : Context) → Refuses e (from self.old (had p a x))) }
    {
        let [t, rest @ ..] = self.rest else {
            return Ok(None);
        };
        let operator = match t.kind {
            Kind::EqEq => Operator::Equal,
            Kind::Less => Operator::Less,
            Kind::Plus => Operator::Plus,
            Kind::Minus => Operator::Minus,
            Kind::Star => Operator::Star,
            Kind::And => Operator::And,
            Kind::Or => Operator::Or,
            Kind::Xor => Operator::Xor,
            Kind::Shl => Operator::Up,
            Kind::Shr => Operator::Down,
            _ => return Ok(None),
        };
        if self.ops >= OPERATOR_LIMIT {
            return Err(SourceError::Deep { at: t.at });
        }
        self.ops += 1;
        self.rest = rest;
        Ok(Some(operator))
    }

    /// Takes the bracket that has to come next, after an expression in brackets or a test.
    pub fn closing(&mut self) -> Result<(), SourceError>
        requires some_open { 0 < self.old.opened }
        requires ended { NoOperator (lexemes self.old.rest.now) }
        ensures paren_ok { OnOk result ((p : Waiting) (e : NamedExpression) (x : Context) → from self.old (had empty e (paren p x)) ≡ from self.new (had p e x)) }
        ensures loop_ok { OnOk result ((e : NamedExpression) (ss : NamedStatements) (b : Block) → from self.old (had empty e (loop_test ss b)) ≡ from self.new (loop_brace e ss b)) }
        ensures choice_ok { OnOk result ((e : NamedExpression) (ss : NamedStatements) (b : Block) → from self.old (had empty e (choice_test ss b)) ≡ from self.new (choice_brace e ss b)) }
        ensures paren_err { IfErr result (λ f. (p : Waiting) (e : NamedExpression) (x : Context) → Refuses f (from self.old (had empty e (paren p x)))) }
        ensures loop_err { IfErr result (λ f. (e : NamedExpression) (ss : NamedStatements) (b : Block) → Refuses f (from self.old (had empty e (loop_test ss b)))) }
        ensures choice_err { IfErr result (λ f. (e : NamedExpression) (ss : NamedStatements) (b : Block) → Refuses f (from self.old (had empty e (choice_test ss b)))) }
        ensures less { OnOk result (self.new.opened + 1 ≡ self.old.opened) }
        ensures shorter { OnOk result (length self.new.rest.now < length self.old.rest.now) }
    {
        let [t, rest @ ..] = self.rest else {
            return Err(SourceError::Syntax { at: self.end });
        };
        if t.kind != Kind::RParen {
            return Err(SourceError::Syntax { at: t.at });
        }
        self.opened -= 1;
        self.rest = rest;
        Ok(())
    }

    /// Reads one operand.
    #[cycle(expression)]
    fn atom(&mut self, alloc: Global) -> Result<Expr<Spot<'a>>, SourceError>
        requires { self.old.opened ≤ 100 }
        ensures ok { IfOk result (λ e. (p : Waiting) (x : Context) → from self.old (want p x) ≡ from self.new (had p (expression e) x)) }
        ensures shorter { OnOk result (length self.new.rest.now < length self.old.rest.now) }
        ensures same { OnOk result (self.new.opened ≡ self.old.opened) }
        ensures err { IfErr result (λ e. (p : Waiting) (x : Context) → Refuses e (from self.old (want p x))) }
    {
        let [t, rest @ ..] = self.rest else {
            return Err(SourceError::Syntax { at: self.end });
        };
        match t.kind {
            Kind::Name => {
                self.rest = rest;
                let name = Spot {
                    text: t.text,
                    at: t.at,
                };
                self.operand(alloc, name)
            }
            Kind::Number => {
                self.rest = rest;
                Ok(Expr::Literal(t.value()))
            }
            Kind::LParen => {
                if self.opened >= OPEN_LIMIT {
                    return Err(SourceError::Deep { at: t.at });
                }
                self.opened += 1;
                self.rest = rest;
                let e = self.expr(alloc)?;
                self.closing()?;
                Ok(e)
            }
            _ => Err(SourceError::Syntax { at: t.at }),
        }
    }

    /// Reads the index of a name, if one comes next.
    #[cycle(expression)]
    fn operand(&mut self, alloc: Global, name: Spot<'a>) -> Result<Expr<Spot<'a>>, SourceError>
        requires { self.old.opened ≤ 100 }
        ensures ok { IfOk result (λ e. (p : Waiting) (x : Context) → from self.old (had_name p (named name.entry) x) ≡ from self.new (had p (expression e) x)) }
        ensures shorter { OnOk result (length self.new.rest.now ≤ length self.old.rest.now) }
        ensures same { OnOk result (self.new.opened ≡ self.old.opened) }
        ensures err { IfErr result (λ e. (p : Waiting) (x : Context) → Refuses e (from self.old (had_name p (named name.entry) x))) }
    {
        if !self.opens_index()? {
            return Ok(Expr::Name(name));
        }
        let index = self.expr(alloc)?;
        self.closes_index()?;
        indexed(alloc, name, index)
    }

    /// Reads the rest of an expression, given the operands that already wait.
    #[cycle(expression)]
    fn operations(
        &mut self,
        alloc: Global,
        mut pending: Pending<'a>,
    ) -> Result<Expr<Spot<'a>>, SourceError>
        requires { self.old.opened ≤ 100 }
        ensures ok { IfOk result (λ e. (x : Context) → from self.old (want (waiting pending.entry) x) ≡ from self.new (had empty (expression e) x)) }
        ensures ended { OnOk result (NoOperator (lexemes self.new.rest.now)) }
        ensures shorter { OnOk result (length self.new.rest.now < length self.old.rest.now) }
        ensures same { OnOk result (self.new.opened ≡ self.old.opened) }
        ensures err { IfErr result (λ e. (x : Context) → Refuses e (from self.old (want (waiting pending.entry) x))) }
    {
        loop {
            let a = self.atom(alloc)?;
            let Some(operator) = self.operator()? else {
                return pending.close(alloc, a);
            };
            pending.push(alloc, a, operator)?;
        }
    }

    /// Reads the longest expression that begins here.
    #[cycle(expression)]
    pub fn expr(&mut self, alloc: Global) -> Result<Expr<Spot<'a>>, SourceError>
        requires { self.old.opened ≤ 100 }
        ensures ok { IfOk result (λ e. (x : Context) → from self.old (want empty x) ≡ from self.new (had empty (expression e) x)) }
        ensures ended { OnOk result (NoOperator (lexemes self.new.rest.now)) }
        ensures shorter { OnOk result (length self.new.rest.now < length self.old.rest.now) }
        ensures same { OnOk result (self.new.opened ≡ self.old.opened) }
        ensures err { IfErr result (λ e. (x : Context) → Refuses e (from self.old (want empty x))) }
    {
        let first = self.atom(alloc)?;
        let Some(operator) = self.operator()? else {
            return Ok(first);
        };
        let mut pending = Pending::new();
        pending.push(alloc, first, operator)?;
        self.operations(alloc, pending)
    }
}
