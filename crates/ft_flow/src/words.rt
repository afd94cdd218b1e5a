//! The words of a line, one by one.
ghost use Rattle.std.specs.Prelude.{◌≡◌, ◌∷◌, [], length, ◌<◌, IfSome, MatchOption};
ghost use Rattle.ft_text.specs.LineWords.{is_comment};
ghost use Rattle.ft_flow.specs.LineWords.{line_words};

/// Whether a word begins a comment.
fn is_comment(word: &[u8]) -> bool
    ensures { result ≡ is_comment word.now }
{
    match word {
        [byte, ..] => *byte == b'#',
        [] => false,
    }
}

/// The first word that a line says, and the text after it; `None` if it says no word.
pub(crate) fn next_word(text: &[u8]) -> Option<(&[u8], &[u8])>
    ensures words { MatchOption result (line_words text.now ≡ []) (λ p. line_words text.now ≡ p.0.now ∷ line_words p.1.now) }
    ensures shorter { IfSome result (λ p. length p.1.now < length text.now) }
{
    let Some((word, rest)) = ft_text::next_word(text) else {
        return None;
    };
    if is_comment(word) {
        return None;
    }
    Some((word, rest))
}
