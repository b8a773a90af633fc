//! A law of commands.
ghost use Rattle.std.specs.Prelude.{◌≡◌, List, Some, ℕ};
ghost use Rattle.command_words.specs.Asked.{asked_by};
ghost use Rattle.command_words.specs.Complete.{IsComplete};
ghost use Rattle.command_words.specs.declared.command.Asked.TheVariants as asked;
ghost use Rattle.command_words.specs.declared.command.Command.{Command as TheCommand};

/// A command that words ask for has all that its mode needs: `trace` and `solo` their two files, and `demo` a number from 1 to
/// 1000.
pub fn law_of_commands()
    ensures { (words : List (List ℕ)) (c : TheCommand) → asked_by words ≡ Some (asked.Command c) → IsComplete c }
{}
