//! Finds sources without output.
use crate::declared::{Declared, declaration_of};
use ft_isa::NoMemory;
use ft_lexer::{Kind, Lexer};
use ft_mistakes::Page;

/// The maximum number of assignments examined.
const MOST_ASSIGNMENTS: usize = 256;

/// Whether a statement may begin after a token of this kind.
fn ends_statement(kind: Kind) -> bool {
    matches!(kind, Kind::Semi | Kind::LBrace | Kind::RBrace)
}

/// Whether no statement assigns to a cell. A source with more than `MOST_ASSIGNMENTS` assignments to variables before
/// the first one to a cell counts as one with an output.
fn is_silent(source: &[u8], declared: &[Declared<'_>]) -> bool {
    let mut lexer = Lexer::new(source);
    let mut begins = true;
    let mut left = MOST_ASSIGNMENTS;
    for _ in 0..source.len() {
        let Some(Ok(token)) = lexer.next() else {
            return true;
        };
        if begins && token.kind == Kind::Name {
            if left == 0 || declaration_of(declared, token.text).is_some() {
                return false;
            }
            left = left.saturating_sub(1);
        }
        begins = ends_statement(token.kind);
    }
    true
}

/// For an accepted source, notes that it has no output, if that is so.
pub(crate) fn note_silent(
    page: &mut Page,
    name: &str,
    source: &[u8],
    declared: &[Declared<'_>],
) -> Result<(), NoMemory> {
    if !is_silent(source, declared) {
        return Ok(());
    }
    page.name(name)?;
    page.say(": note: no statement assigns to a cell, so there is no output\n")
}
