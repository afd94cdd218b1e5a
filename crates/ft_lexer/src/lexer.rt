//! The lexer.
ghost use Rattle.std.specs.Prelude.{◌≡◌, ◌≢◌, ◌+◌, ◌^◌, ◌<◌, ◌≤◌, true, length, IfNone, IfSome, OnErr, Some, Ok};
ghost use Rattle.ft_lexer.specs.Bytes.{is_letter, is_digit};
ghost use Rattle.ft_lexer.specs.declared.kind.Kind.TheVariants as kinds;
ghost use Rattle.ft_lexer.specs.Scan.{scan, scan_from, comment, over, told};

use crate::bytes::{is_blank, is_digit, is_letter, pair_kind, sign_kind, word_kind};
use crate::kind::Kind;
use crate::lex_error::LexError;
use crate::runs::{NAME_LIMIT, fits, name_len, number_len};
use crate::token::Token;

/// The rest of a source text, whose tokens are still to be returned.
///
/// A lexer allocates nothing, and its tokens are slices of the text.
#[derive(Drop)]
pub struct Lexer<'a> {
    rest: &'a [u8],
    at: usize,
    ghost in_range: { at + length rest.now < 2 ^ 64 },
}

impl<'a> Lexer<'a> {
    ghost use Rattle.ft_lexer.specs.Left.{left, BeginsToken, BeginsWith, BeginsWithout, alone, is_twice, scan_twice};

    /// A lexer at the start of the text.
    pub fn new(text: &'a [u8]) -> Lexer<'a>
        ensures tells { left result ≡ scan text.now }
    {
        Lexer { rest: text, at: 0 }
    }

    /// Skips a comment, but not its line feed.
    fn pass_comment(&mut self)
        ensures same { scan_from comment self.old.at self.old.rest.now ≡ left self.new }
        ensures shorter { length self.new.rest.now ≤ length self.old.rest.now }
    {
        while let [b, rest @ ..] = self.rest
            && *b != b'\n'
        {
            self.rest = rest;
            self.at += 1;
        }
    }

    /// Skips blanks and comments.
    fn pass_gap(&mut self)
        ensures same { left self.old ≡ left self.new }
        ensures token { BeginsToken self.new.rest.now }
    {
        while let [b, rest @ ..] = self.rest {
            if is_blank(*b) {
                self.rest = rest;
                self.at += 1;
            } else if *b == b'#' {
                self.rest = rest;
                self.at += 1;
                self.pass_comment();
            } else {
                break;
            }
        }
    }

    /// Takes a name or a reserved word.
    fn word(&mut self) -> Result<Token<'a>, LexError>
        requires letter { BeginsWith is_letter self.old.rest.now }
        requires token { BeginsToken self.old.rest.now }
        ensures told { left self.old ≡ told (Some result) (left self.new) }
        ensures err { OnErr result (left self.new ≡ over) }
    {
        let text = self.rest;
        let Some(n) = name_len(text) else {
            let at = self.at + NAME_LIMIT;
            self.rest = &[];
            return Err(LexError::Byte { at });
        };
        let rest = &text[n..];
        let at = self.at;
        self.rest = rest;
        self.at += n;
        let text = &text[..n];
        Ok(Token {
            kind: word_kind(text),
            text,
            at,
        })
    }

    /// Takes a number.
    fn number(&mut self) -> Result<Token<'a>, LexError>
        requires digit { BeginsWith is_digit self.old.rest.now }
        requires token { BeginsToken self.old.rest.now }
        ensures told { left self.old ≡ told (Some result) (left self.new) }
        ensures err { OnErr result (left self.new ≡ over) }
    {
        let text = self.rest;
        let n = number_len(text);
        let at = self.at;
        let rest = &text[n..];
        let text = &text[..n];
        if !fits(text) {
            self.rest = &[];
            return Err(LexError::Number { at });
        }
        self.rest = rest;
        self.at += n;
        Ok(Token {
            kind: Kind::Number,
            text,
            at,
        })
    }

    /// Whether the next two bytes are equal.
    fn is_twice(&self) -> bool
        ensures { result ≡ is_twice self.now.rest.now }
    {
        match self.rest {
            [b, c, ..] => *c == *b,
            _ => false,
        }
    }

    /// Takes a token of one byte.
    fn single(&mut self) -> Result<Token<'a>, LexError>
        requires some { 0 < length self.old.rest.now }
        ensures told { alone self.old.at self.old.rest.now ≡ told (Some result) (left self.new) }
        ensures err { OnErr result (left self.new ≡ over) }
    {
        let all = self.rest;
        let at = self.at;
        let Some(kind) = sign_kind(all[0]) else {
            self.rest = &[];
            return Err(LexError::Byte { at });
        };
        self.rest = &all[1..];
        self.at += 1;
        Ok(Token {
            kind,
            text: &all[..1],
            at,
        })
    }

    /// Takes a token of two equal bytes.
    fn pair(&mut self, kind: Kind) -> Token<'a>
        requires twice { is_twice self.old.rest.now ≡ true }
        requires no_number { kind ≢ kinds.Number }
        ensures told { scan_twice kind self.old.at self.old.rest.now ≡ told (Some (Ok result)) (left self.new) }
    {
        let all = self.rest;
        let at = self.at;
        self.rest = &all[2..];
        self.at += 2;
        Token {
            kind,
            text: &all[..2],
            at,
        }
    }

    /// Takes a token of any other kind.
    fn sign(&mut self) -> Result<Token<'a>, LexError>
        requires some { 0 < length self.old.rest.now }
        requires no_letter { BeginsWithout is_letter self.old.rest.now }
        requires no_digit { BeginsWithout is_digit self.old.rest.now }
        requires token { BeginsToken self.old.rest.now }
        ensures told { left self.old ≡ told (Some result) (left self.new) }
        ensures err { OnErr result (left self.new ≡ over) }
    {
        let Some(kind) = pair_kind(self.rest[0]) else {
            return self.single();
        };
        if self.is_twice() {
            Ok(self.pair(kind))
        } else {
            self.single()
        }
    }

    /// The next token, or the text's error, or `None` at the end. After the error or the end it is always `None`.
    pub fn next(&mut self) -> Option<Result<Token<'a>, LexError>>
        ensures tells { left self.old ≡ told result (left self.new) }
        ensures end { IfNone result (left self.new ≡ over) }
        ensures wrong { IfSome result (λ r. OnErr r (left self.new ≡ over)) }
    {
        self.pass_gap();
        let [b, ..] = self.rest else {
            return None;
        };
        if is_letter(*b) {
            Some(self.word())
        } else if is_digit(*b) {
            Some(self.number())
        } else {
            Some(self.sign())
        }
    }
}
