//! Laws of scripts.
ghost use Rattle.std.specs.Prelude.{◌≡◌, ℕ, List};
ghost use Rattle.ft_script.specs.Commands.{Command, AreCommands};

/// The lines of a script give exactly one list of commands. So a session has exactly one text.
pub fn commands_are_one()
    ensures some { (script : List ℕ) → (commands : List Command) × AreCommands script commands }
    ensures one { (script : List ℕ) (commands others : List Command) → AreCommands script commands → AreCommands script others → commands ≡ others }
{}
