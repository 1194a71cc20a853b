//! The words of documents, and which objectives have grades.

ghost use Rattle.std.specs.Prelude.{◌≡◌};
ghost use Rattle.asg_doc.specs.Words.{command_word, has_grades};

use crate::documents::Command;
use asg_model::Objective;

/// The word of a command.
pub fn word_of_command(command: Command) -> &'static [u8]
    ensures { result.now ≡ command_word command }
{
    match command {
        Command::Solve => b"solve",
        Command::Rank => b"rank",
        Command::Edit => b"edit",
    }
}

/// Whether the objective's steps have grades.
pub fn has_grades(objective: Objective) -> bool
    ensures { result ≡ has_grades objective }
{
    matches!(objective, Objective::TimeCost)
}
