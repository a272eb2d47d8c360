//! Laws of commands, each the contract of a function that does nothing.

ghost use Rattle.std.specs.Prelude.{◌≡◌, ℕ, List, Some};
ghost use Rattle.dms_text.specs.Words.{words_of};
ghost use Rattle.dms_codes.specs.declared.codes.Order.{Order};
ghost use Rattle.dms_centre_jobs.specs.Commands.{CommandModel};
ghost use Rattle.dms_centre_text.specs.CommandLine.{SpellsCommand};
ghost use Rattle.dms_centre_text.specs.CommandReading.{command_of};

/// The command that is read of a line is spelled by it, and a command that a line spells is read of it.
pub fn commands_are_read_where_they_are_spelled()
    ensures found { (order : Order) (line : List ℕ) (asked : CommandModel) → command_of order line ≡ Some asked
        → SpellsCommand order asked (words_of line) }
    ensures only { (order : Order) (line : List ℕ) (asked : CommandModel) → SpellsCommand order asked (words_of line)
        → command_of order line ≡ Some asked }
{}

/// A line spells at most one command.
pub fn a_line_spells_at_most_one_command()
    ensures { (order : Order) (line : List ℕ) (one other : CommandModel) → SpellsCommand order one (words_of line)
        → SpellsCommand order other (words_of line) → one ≡ other }
{}
