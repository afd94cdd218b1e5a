//! The words of a line that spaces and tabs separate, one by one.
ghost use Rattle.std.specs.Prelude.{◌≡◌, ◌∷◌, [], position, not, length, ◌<◌, IfSome, MatchOption};
ghost use Rattle.ft_text.specs.LineWords.{is_blank, words_of};

/// Whether a byte is a space or a tab.
fn is_blank(byte: u8) -> bool
    ensures { result ≡ is_blank byte }
{
    byte == b' ' || byte == b'\t'
}

/// The position of the first blank.
fn first_blank(text: &[u8]) -> Option<usize>
    ensures { result ≡ position is_blank text.now }
{
    text.iter().position(|byte| is_blank(*byte))
}

/// The position of the first byte that is not a blank.
fn first_part(text: &[u8]) -> Option<usize>
    ensures { result ≡ position (λ byte. not (is_blank byte)) text.now }
{
    text.iter().position(|byte| !is_blank(*byte))
}

/// The first word of a text, and the text after it; `None` if it has no word. Words are separated by spaces and tabs.
pub fn next_word(text: &[u8]) -> Option<(&[u8], &[u8])>
    ensures words { MatchOption result (words_of text.now ≡ []) (λ p. words_of text.now ≡ p.0.now ∷ words_of p.1.now) }
    ensures shorter { IfSome result (λ p. length p.1.now < length text.now) }
{
    let Some(start) = first_part(text) else {
        return None;
    };
    let rest = &text[start..];
    match first_blank(rest) {
        Some(end) => Some((&rest[..end], &rest[end + 1..])),
        None => Some((rest, &[])),
    }
}
