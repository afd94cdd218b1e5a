//! Laws of the definitions, each the contract of a function that does nothing.
ghost use Rattle.std.specs.Prelude.{◌≡◌, true, [], ◌∷◌};
ghost use Rattle.ft_scope.specs.Resolved.{Program, program_need, program_weight};
ghost use Rattle.ft_meaning.specs.Fibonacci.{fibonacci, puts_out};
ghost use Rattle.ft_meaning.specs.ArrayProgram.{array_program, array_outputs};
ghost use Rattle.ft_lower.specs.Flow.{Blocks, flow_run};
ghost use Rattle.ft_lower.specs.Size.{blocks_size, PairsBelow};
ghost use Rattle.ft_lower.specs.Well.{IsWell};
ghost use Rattle.ft_lower.specs.Lowered.{lowered};
ghost use Rattle.ft_lower.specs.Lowers.{FlowsAsMeant, Lowers};

/// The Fibonacci program of the documents needs 7 pairs and weighs 69. Its blocks are well formed, become 61
/// instructions and name only pairs below 7; their run is done after 240 steps, with ten numbers as its outputs.
pub fn fibonacci_numbers_are_run()
    ensures need { program_need fibonacci ≡ 7 }
    ensures weight { program_weight fibonacci ≡ 69 }
    ensures well { IsWell 4 1 (lowered fibonacci) }
    ensures size { blocks_size (lowered fibonacci) ≡ 61 }
    ensures pairs { PairsBelow 7 (lowered fibonacci) }
    ensures done { (flow_run (lowered fibonacci) (0 ∷ []) 240).done ≡ true }
    ensures out { (flow_run (lowered fibonacci) (0 ∷ []) 240).out ≡ puts_out (0 ∷ 1 ∷ 1 ∷ 2 ∷ 3 ∷ 5 ∷ 8 ∷ 13 ∷ 21 ∷ 34 ∷ []) }
{}

/// The array program of the documents needs 5 pairs and weighs 49. Its blocks are well formed, become 41 instructions
/// and name only pairs below 5; their run is done after 63 steps, with four words as its outputs.
pub fn array_words_are_run()
    ensures need { program_need array_program ≡ 5 }
    ensures weight { program_weight array_program ≡ 49 }
    ensures well { IsWell 1 3 (lowered array_program) }
    ensures size { blocks_size (lowered array_program) ≡ 41 }
    ensures pairs { PairsBelow 5 (lowered array_program) }
    ensures done { (flow_run (lowered array_program) (0 ∷ 0 ∷ 0 ∷ []) 63).done ≡ true }
    ensures out { (flow_run (lowered array_program) (0 ∷ 0 ∷ 0 ∷ []) 63).out ≡ array_outputs }
{}

/// Blocks that do what a program means with any initial words do so with its own.
pub fn flows_mean_their_own_words()
    ensures { (p : Program) (bs : Blocks) → Lowers p bs → FlowsAsMeant p bs }
{}
