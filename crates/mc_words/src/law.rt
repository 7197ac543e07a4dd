ghost use Rattle.std.specs.Prelude.{◌≡◌, ℕ, List};
ghost use Rattle.mc_words.specs.Commands.{AreWords};
ghost use Rattle.mc_words.specs.declared.command.Command.{Command};

/// The words are of one command at most.
pub fn words_are_of_one_command()
    ensures { (words : List (List ℕ)) (a b : Command) → AreWords words a → AreWords words b
        → a ≡ b }
{}
