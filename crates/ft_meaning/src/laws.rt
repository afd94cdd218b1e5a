//! Laws of the definitions. Each is the contract of a function that does nothing.
ghost use Rattle.std.specs.Prelude.{◌≡◌, ℕ, ◌+◌, [], ◌∷◌};
ghost use Rattle.ft_scope.specs.Resolved.{Program};
ghost use Rattle.ft_meaning.specs.Meaning.{State, Ended, Cut, with_left, outputs, work, meaning};
ghost use Rattle.ft_meaning.specs.Begins.{Begins};
ghost use Rattle.ft_meaning.specs.Fibonacci.{fibonacci, puts_out};
ghost use Rattle.ft_meaning.specs.ArrayProgram.{array_program, array_outputs};

/// With more turns, the meaning of a program that ended is the same except for the turns left over; for a program that
/// was cut, the outputs are a prefix of the new outputs.
pub fn more_turns_extend_a_meaning()
    ensures ended { (p : Program) (t more : ℕ) (s : State) → meaning p t ≡ Ended s → meaning p (t + more) ≡ Ended (with_left (s.left + more) s) }
    ensures cut { (p : Program) (t more : ℕ) (s : State) → meaning p t ≡ Cut s → Begins s.out (outputs (meaning p (t + more))) }
{}

/// The Fibonacci program of the documentation outputs ten numbers, and its work is 186.
pub fn fibonacci_numbers_are_meant()
    ensures out { outputs (meaning fibonacci 10) ≡ puts_out (0 ∷ 1 ∷ 1 ∷ 2 ∷ 3 ∷ 5 ∷ 8 ∷ 13 ∷ 21 ∷ 34 ∷ []) }
    ensures work { work (meaning fibonacci 10) ≡ 186 }
{}

/// The array program of the documentation outputs four words, the last one to the first cell again, and its work is 56.
pub fn array_words_are_meant()
    ensures out { outputs (meaning array_program 4) ≡ array_outputs }
    ensures work { work (meaning array_program 4) ≡ 56 }
{}
