//! The words of a line: a piece at its start, and the parts around its first space.
ghost use Rattle.std.specs.Prelude.{◌≡◌, ◌≢◌, ℕ, List, ◌++◌, All, codes, position, ◌==◌, IfSome, MatchOption};

/// What follows a piece at the start of a text; `None` if the text does not begin with it.
pub fn after<'t>(text: &'t [u8], piece: &[u8]) -> Option<&'t [u8]>
    ensures { MatchOption result ((rest : List ℕ) → text.now ≢ piece.now ++ rest) (λ rest. text.now ≡ piece.now ++ rest.now) }
{
    text.strip_prefix(piece)
}

/// The place of the first space.
pub fn first_space(text: &[u8]) -> Option<usize>
    ensures { result ≡ position (λ byte. byte == 32) text.now }
{
    text.iter().position(|byte| *byte == b' ')
}

/// The parts of a text before and after its first space; `None` if it has no space.
pub fn split_word(text: &[u8]) -> Option<(&[u8], &[u8])>
    ensures some { IfSome result (λ p. text.now ≡ p.0.now ++ codes " " ++ p.1.now) }
    ensures only { (a b : List ℕ) → All (λ byte. byte ≢ 32) a → text.now ≡ a ++ codes " " ++ b → MatchOption result ⊥ (λ p. (p.0.now ≡ a) × (p.1.now ≡ b)) }
{
    match first_space(text) {
        Some(at) => Some((&text[..at], &text[at + 1..])),
        None => None,
    }
}
