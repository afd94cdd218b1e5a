//! Tokens.
ghost use Rattle.std.specs.Prelude.{◌≡◌, ◌<◌, ◌^◌};
ghost use Rattle.ft_lexer.specs.Numeral.{numeral};
ghost use Rattle.ft_lexer.specs.declared.kind.Kind.TheVariants as kinds;

use crate::kind::Kind;
use crate::runs::number_of;

/// A token of a source text: its kind, its slice of the text, and the place of its first byte, counted from 0.
#[derive(Clone, Copy, Debug)]
pub struct Token<'a> {
    pub kind: Kind,
    pub text: &'a [u8],
    pub at: usize,
    pub ghost is_word: { kind ≡ kinds.Number → numeral 0 text.now < 2 ^ 64 },
}

impl Token<'_> {
    /// The number that a number token spells.
    pub fn value(&self) -> u64
        requires { self.now.kind ≡ kinds.Number }
        ensures { result ≡ numeral 0 self.now.text.now }
    {
        number_of(self.text)
    }
}
