//! From a text to its tree.
ghost use Rattle.std.specs.Prelude.{◌≡◌, ◌≢◌, ◌≤◌, length, IfOk, IfErr};
ghost use Rattle.ft_syntax.specs.Size.{node_count};
ghost use Rattle.ft_syntax.specs.TreeOf.{tree_of};
ghost use Rattle.ft_syntax.specs.Refusal.{IsSource, IsRefused};
ghost use Rattle.ft_syntax.specs.declared.source_error.SourceError.TheVariants as errors;

use crate::declarations::parse_tokens;
use crate::source_error::SourceError;
use crate::tokens::all_tokens;
use crate::tree::Tree;
use std::alloc::Global;

/// The maximum size of a source text in bytes.
const TEXT_LIMIT: usize = 1_048_576;

/// The tree of a source text, whose names are slices of the text.
///
/// For a text that is not a source, the error is the first of these that applies: `TooLong`; the first `Byte` or
/// `Number` in the text; the first `Syntax` or `Deep` among the tokens, and `Syntax` if both are at the same token.
/// Each token is read once.
pub fn parse<'a>(alloc: Global, text: &'a [u8]) -> Result<Tree<'a>, SourceError>
    ensures ok { IfOk result (λ tree. IsSource text.now (tree_of tree)) }
    ensures nodes { IfOk result (λ tree. node_count tree.decls.items tree.body.items ≤ length text.now) }
    ensures err { IfErr result (λ e. e ≢ errors.NoMemory → IsRefused text.now e) }
{
    if text.len() > TEXT_LIMIT {
        return Err(SourceError::TooLong);
    }
    let all = all_tokens(alloc, text)?;
    let (decls, body) = parse_tokens(alloc, &all, text.len())?;
    Ok(Tree { decls, body })
}
