//! The colours of the two computations.
ghost use Rattle.std.specs.Prelude.{◌≡◌};

/// The colour of a computation: green leads, and blue repeats it (Perry, Mackey, Reis, Ligatti,
/// August, Walker, "Fault-tolerant Typed Assembly Language", PLDI 2007).
#[derive(Clone, Copy, Debug, PartialEq, Eq)]
pub enum Colour {
    Green,
    Blue,
}

/// A word with its colour.
#[derive(Clone, Copy, Debug, PartialEq, Eq)]
pub struct Coloured {
    pub colour: Colour,
    pub word: u64,
}

impl Colour {
    ghost use Rattle.ft_isa.specs.Instructions.{is_green};

    /// Whether it is green.
    pub fn is_green(self) -> bool
        ensures { result ≡ is_green self }
    {
        match self {
            Colour::Green => true,
            Colour::Blue => false,
        }
    }
}
