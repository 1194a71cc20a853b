//! What single words name.

ghost use Rattle.std.specs.Prelude.{◌≡◌};
ghost use Rattle.asg_words.specs.Named.{capped_named, command_named, format_named};
ghost use Rattle.asg_model.specs.Objectives.{is_algebraic};
ghost use Rattle.asg_words.specs.Named.{objective_named};

use crate::numbers::number_within;
use asg_model::limits::MOST_CAP;
use asg_model::{Objective, uncapped_named};
use asg_text::Format;

// The commands of the program.
#[derive(Clone, Copy)]
pub enum Command {
    Solve,
    Rank,
    Edit,
    Check,
    Make,
}

// The command of a name.
pub fn command_named(name: &str) -> Option<Command>
    ensures { result ≡ command_named name.now }
{
    match name {
        "solve" => Some(Command::Solve),
        "rank" => Some(Command::Rank),
        "edit" => Some(Command::Edit),
        "check" => Some(Command::Check),
        "make" => Some(Command::Make),
        _ => None,
    }
}

// The objective of a name, that of a capped sum with its cap.
pub fn objective_named(name: &str) -> Option<Objective>
    ensures { result ≡ objective_named name.now }
{
    match uncapped_named(name.as_bytes()) {
        Some(objective) => Some(objective),
        None => capped_named(name),
    }
}

// The objective of `capped=` and the cap.
fn capped_named(name: &str) -> Option<Objective>
    ensures { result ≡ capped_named name.now }
{
    let cap = number_within(name.strip_prefix("capped=")?, 1, MOST_CAP)?;
    Some(Objective::Capped(cap))
}

// Whether the objective's values are those of an ordered monoid.
pub fn is_algebraic(objective: Objective) -> bool
    ensures { result ≡ is_algebraic objective }
{
    !matches!(objective, Objective::Balanced | Objective::Lex)
}

// The format of a name.
pub fn format_named(name: &str) -> Option<Format>
    ensures { result ≡ format_named name.now }
{
    match name {
        "asn" => Some(Format::Asn),
        "square" => Some(Format::Square),
        "rect" => Some(Format::Rect),
        _ => None,
    }
}
