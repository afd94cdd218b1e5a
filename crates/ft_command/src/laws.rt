//! A law about the definitions alone. The function does nothing: its clause is the law.
ghost use Rattle.std.specs.Prelude.{◌≡◌, List};
ghost use Rattle.ft_command.specs.Options.{Word};
ghost use Rattle.ft_command.specs.Commands.{Request, Asks};

/// Words ask for at most one thing.
pub fn words_ask_for_one_thing()
    ensures { (words : List Word) (a b : Request) → Asks words a → Asks words b → a ≡ b }
{}
