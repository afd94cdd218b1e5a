//! Laws of the definitions. Each is the contract of a function that does nothing.
ghost use Rattle.std.specs.Prelude.{ℕ, List};
ghost use Rattle.ft_lexer.specs.Placed.{Placed};
ghost use Rattle.ft_lexer.specs.Scan.{scan};

/// Each token of a text is the part of the text at its place, and places increase.
pub fn places_rise()
    ensures { (text : List ℕ) → Placed text 0 (scan text) }
{}
