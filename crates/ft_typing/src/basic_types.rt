//! Comparisons of colours and of basic types.
ghost use Rattle.std.specs.Prelude.{◌≡◌};
ghost use Rattle.ft_typing.specs.TypedWord.{same_base, same_basic, is_seen_as};
ghost use Rattle.ft_typing.specs.RowWords.{same_colour};

use ft_isa::{Base, Basic, Colour, INT};

/// Whether two colours are equal.
#[tactic(auto, unfolding(crate::specs::RowWords::same_colour))]
pub fn same_colour(a: Colour, b: Colour) -> bool
    ensures { result ≡ same_colour a b }
{
    match (a, b) {
        (Colour::Green, Colour::Green) => true,
        (Colour::Green, Colour::Blue) => false,
        (Colour::Blue, Colour::Green) => false,
        (Colour::Blue, Colour::Blue) => true,
    }
}

/// Whether two bases are equal.
fn same_base(a: Base, b: Base) -> bool
    ensures { result ≡ same_base a b }
{
    match (a, b) {
        (Base::Int, Base::Int) => true,
        (Base::Int, Base::Code(_)) => false,
        (Base::Code(_), Base::Int) => false,
        (Base::Code(t), Base::Code(u)) => t == u,
    }
}

/// Whether two basic types are equal.
#[tactic(auto, unfolding(crate::specs::TypedWord::same_basic))]
pub fn same_basic(a: Basic, b: Basic) -> bool
    ensures { result ≡ same_basic a b }
{
    a.refs == b.refs && same_base(a.base, b.base)
}

/// Whether the first basic type is accepted as the second: they are equal, or the second is `int`.
#[tactic(auto, unfolding(crate::specs::TypedWord::is_seen_as))]
pub fn is_seen_as(a: Basic, b: Basic) -> bool
    ensures { result ≡ is_seen_as a b }
{
    same_basic(a, b) || same_basic(b, INT)
}
