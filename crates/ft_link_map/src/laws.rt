//! Laws of link maps.
ghost use Rattle.std.specs.Prelude.{◌≡◌, ℕ, List};
ghost use Rattle.ft_link_map.specs.MapLines.{MapLine, AreSaid};

/// The lines of a text have exactly one reading, so each text has exactly one answer.
pub fn lines_are_one()
    ensures some { (text : List ℕ) → (said : List MapLine) × AreSaid text said }
    ensures one { (text : List ℕ) (said others : List MapLine) → AreSaid text said → AreSaid text others → said ≡ others }
{}
