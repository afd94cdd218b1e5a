//! Fields: words, each read as a value.
ghost use Rattle.std.specs.Prelude.{◌≡◌, ◌<◌, option_map, map, IfSome};
ghost use Rattle.std.specs.Str.{bytes_eq};
ghost use Rattle.ft_flow.specs.LineWords.{line_words};
ghost use Rattle.ft_text.specs.LineWords.{ended, taken};
ghost use Rattle.ft_flow.specs.Fields.{index_of, label_in, label_name, number_in, pair_in, past};
ghost use Rattle.ft_flow.specs.Steps.{any_word};

use crate::limits::PAIRS;
use crate::words::next_word;
use ft_isa::read_number;
use ft_lower::Step3;

/// The number that a word spells.
pub(crate) fn number_of(word: &[u8]) -> Option<u64>
    ensures { result ≡ number_in word.now }
{
    read_number(word)
}

/// The pair that a word names.
#[tactic(auto, unfolding(crate::specs::Fields::pair_in))]
pub(crate) fn pair_of(word: &[u8]) -> Option<u8>
    ensures pair { result ≡ pair_in word.now }
{
    let [b'p', number @ ..] = word else {
        return None;
    };
    let Some(number) = number_of(number) else {
        return None;
    };
    if number < PAIRS as u64 {
        Some(number as u8)
    } else {
        None
    }
}

/// Whether two words are the same.
pub(crate) fn is_same(a: &[u8], b: &[u8]) -> bool
    ensures { result ≡ bytes_eq a.now b.now }
{
    a == b
}

/// Reads a pair; returns it and the text after its word.
pub(crate) fn take_pair(text: &[u8]) -> Option<(u8, &[u8])>
    ensures { taken pair_in (line_words text.now) ≡ option_map (λ p. (p.0, line_words p.1.now)) result }
{
    let Some((word, rest)) = next_word(text) else {
        return None;
    };
    let Some(pair) = pair_of(word) else {
        return None;
    };
    Some((pair, rest))
}

/// Reads a word; returns it and the text after it.
pub(crate) fn take_word(text: &[u8]) -> Option<(&[u8], &[u8])>
    ensures { taken any_word (line_words text.now) ≡ option_map (λ p. (p.0.now, line_words p.1.now)) result }
{
    next_word(text)
}

/// The text after a word that is expected.
pub(crate) fn take_past<'t>(expected: &[u8], text: &'t [u8]) -> Option<&'t [u8]>
    ensures { past expected.now (line_words text.now) ≡ option_map (λ r. line_words r.now) result }
{
    let Some((word, rest)) = next_word(text) else {
        return None;
    };
    if is_same(word, expected) {
        Some(rest)
    } else {
        None
    }
}

/// The step, if no word is left.
pub(crate) fn end(text: &[u8], step: Step3) -> Option<Step3>
    ensures { result ≡ ended step (line_words text.now) }
{
    match next_word(text) {
        Some(_) => None,
        None => Some(step),
    }
}

/// The place of the first of these names that is this word; their number if none is.
pub(crate) fn index_of(names: &[&[u8]], word: &[u8]) -> usize
    ensures { result ≡ index_of (map (λ n. n.now) names.now) word.now }
{
    let mut i = 0;
    while i < names.len() {
        if is_same(names[i], word) {
            return i;
        }
        i += 1;
    }
    i
}

/// The name of the block that a word begins.
fn label_name(word: &[u8]) -> Option<&[u8]>
    ensures { label_name word.now ≡ option_map (λ n. n.now) result }
{
    let n = word.len();
    if n > 1 && word[n - 1] == b':' {
        Some(&word[..n - 1])
    } else {
        None
    }
}

/// The name of the block that a line begins.
pub(crate) fn label_of(text: &[u8]) -> Option<&[u8]>
    ensures { label_in (line_words text.now) ≡ option_map (λ n. n.now) result }
{
    let Some((word, rest)) = next_word(text) else {
        return None;
    };
    match next_word(rest) {
        Some(_) => None,
        None => label_name(word),
    }
}
