//! Laws of the definitions. Each is the contract of a function that does nothing.
ghost use Rattle.std.specs.Prelude.{◌≡◌, ℕ, [], ◌∷◌, length};
ghost use Rattle.ft_meaning.specs.Fibonacci.{fibonacci};
ghost use Rattle.ft_lower.specs.Flow.{Blocks};
ghost use Rattle.ft_lower.specs.Lowered.{lowered};
ghost use Rattle.ft_lower.specs.Well.{IsWell};
ghost use Rattle.ft_dup.specs.Images.{doubled, starts};
ghost use Rattle.ft_dup.specs.Shape.{HasShape};

/// The Fibonacci program of the documents becomes 61 instructions in three blocks.
pub fn fibonacci_program_is_doubled()
    ensures size { length (doubled (lowered fibonacci)) ≡ 61 }
    ensures starts { starts (lowered fibonacci) ≡ 0 ∷ 16 ∷ 60 ∷ [] }
{}

/// Well-formed blocks have the shape that `duplicate` requires.
pub fn well_flows_have_the_shape()
    ensures { (vars cells : ℕ) (bs : Blocks) → IsWell vars cells bs → HasShape bs }
{}
