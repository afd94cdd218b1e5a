//! The tokens of a text, all at once.
ghost use Rattle.std.specs.Prelude.{◌≡◌, IfOk, IfErr, Ok};
ghost use Rattle.ft_lexer.specs.Scan.{scan, all_of};
ghost use Rattle.ft_syntax.specs.View.{lexemes, LexRefused};

use crate::source_error::SourceError;
use ft_lexer::{LexError, Lexer, Token};
use std::alloc::Global;

/// The tokens of a text.
#[tactic(auto, using(crate::proofs::TokenLists::lexemes_push, crate::proofs::TokenLists::after_push, crate::proofs::TokenLists::after_none, crate::proofs::TokenLists::after_error, crate::proofs::TokenLists::after_empty))]
pub fn all_tokens<'a>(alloc: Global, text: &'a [u8]) -> Result<Vec<Token<'a>>, SourceError>
    ensures ok { IfOk result (λ v. all_of (scan text.now) ≡ Ok (lexemes v.items)) }
    ensures err { IfErr result (λ e. LexRefused e (all_of (scan text.now))) }
{
    let mut all = Vec::new(alloc);
    let mut lexer = Lexer::new(text);
    while let Some(told) = lexer.next() {
        match told {
            Ok(t) => {
                let Ok(()) = all.push(t) else {
                    return Err(SourceError::NoMemory);
                };
            }
            Err(LexError::Byte { at }) => return Err(SourceError::Byte { at }),
            Err(LexError::Number { at }) => return Err(SourceError::Number { at }),
        }
    }
    Ok(all)
}
