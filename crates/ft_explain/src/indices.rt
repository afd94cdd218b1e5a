//! Finds constant indices in a source that are out of bounds.
use crate::declared::{Declared, Index, NOTHING, declaration_of};
use ft_isa::NoMemory;
use ft_lexer::Lexer;
use ft_mistakes::{Page, Place};

/// The maximum number of indices examined.
const MOST_INDICES: usize = 256;

/// How many cells the array with this name has; `None` if there is no such array.
fn length_of(declared: &[Declared<'_>], name: &[u8]) -> Option<u64> {
    declaration_of(declared, name)?.length
}

/// Says that an index is past the end of its array, and which cell it selects.
fn say_beyond(
    page: &mut Page,
    name: &str,
    source: &[u8],
    index: Index<'_>,
    length: u64,
) -> Result<(), NoMemory> {
    let place = Place::of(source, index.number.at);
    let number = index.number.value;
    let meant = number.checked_rem(length).unwrap_or(0);
    page.name(name)?;
    page.say(format_args!(":{}:{}: note: ", place.number(), place.column()))?;
    page.quote(index.name)?;
    page.say(format_args!(" has {length} cells: the index {number} selects cell {meant}\n"))?;
    place.show(page, index.number.length)
}

/// The first constant index past the end of its array, and that array's length.
fn first_beyond<'s>(source: &'s [u8], declared: &[Declared<'_>]) -> Option<(Index<'s>, u64)> {
    let mut lexer = Lexer::new(source);
    let mut seen = NOTHING;
    let mut left = MOST_INDICES;
    for _ in 0..source.len() {
        let Some(Ok(token)) = lexer.next() else {
            return None;
        };
        if let Some(index) = seen.index_before(token) {
            if left == 0 {
                return None;
            }
            left = left.saturating_sub(1);
            if let Some(length) = length_of(declared, index.name)
                && index.number.value >= length
            {
                return Some((index, length));
            }
        }
        seen = seen.then(token);
    }
    None
}

/// For an accepted source, reports the first constant index past the end of its array.
pub(crate) fn note_indices(
    page: &mut Page,
    name: &str,
    source: &[u8],
    declared: &[Declared<'_>],
) -> Result<(), NoMemory> {
    match first_beyond(source, declared) {
        Some((index, length)) => say_beyond(page, name, source, index, length),
        None => Ok(()),
    }
}
