//! The one command that the words are taken by.

ghost use Rattle.std.specs.Prelude.{◌≡◌, false, fold, IfOk};
ghost use Rattle.clap.specs.Walk.{rule_of};
ghost use Rattle.clap.specs.Simple.{app_of, with_rule};
ghost use Rattle.asg_words.specs.CommandLine.{command_line, option, positional};
ghost use Rattle.asg_words.specs.CommandLine.{doing_options, reading_options, words_alone};

use clap::{Arg, ArgAction, Command};
use std::alloc::{AllocError, Global};

// A word in its place.
fn positional<'a>(alloc: Global, name: &'a str, action: ArgAction) -> Arg<'a>
    ensures rule { rule_of result ≡ positional name.entry.now action }
    ensures local { result.global ≡ false }
{
    Arg::new(alloc, name).action(action)
}

// An option or a flag, by its name.
fn option<'a>(alloc: Global, name: &'a str, action: ArgAction) -> Arg<'a>
    ensures rule { rule_of result ≡ option name.entry.now action }
    ensures local { result.global ≡ false }
{
    Arg::new(alloc, name).long(name).action(action)
}

// The command without options: a name, and the words after it. The error is want of memory.
fn words_alone<'a>(alloc: Global) -> Result<Command<'a>, AllocError>
    ensures { IfOk result (λ command. app_of command ≡ words_alone) }
{
    Command::new(alloc, "asg")
        .no_binary_name(true)
        .arg(positional(alloc, "command", ArgAction::Set))?
        .arg(positional(alloc, "words", ArgAction::Append))
}

// The command with one more option or flag. The error is want of memory.
fn with_option<'a>(
    alloc: Global,
    command: Command<'a>,
    name: &'a str,
    action: ArgAction,
) -> Result<Command<'a>, AllocError>
    ensures { IfOk result (λ more.
        app_of more ≡ with_rule (app_of command.entry) (option name.entry.now action)) }
{
    command.arg(option(alloc, name, action))
}

// The command with the options that say how an instance is read besides. The error is want of
// memory.
fn with_reading<'a>(alloc: Global, command: Command<'a>) -> Result<Command<'a>, AllocError>
    ensures { IfOk result (λ more.
        app_of more ≡ fold with_rule (app_of command.entry) reading_options) }
{
    let format = with_option(alloc, command, "format", ArgAction::Set)?;
    let place = with_option(alloc, format, "place", ArgAction::Set)?;
    with_option(alloc, place, "each", ArgAction::Set)
}

// The command with the options that say what is to be done besides, and the flag. The error is want
// of memory.
fn with_doing<'a>(alloc: Global, command: Command<'a>) -> Result<Command<'a>, AllocError>
    ensures { IfOk result (λ more.
        app_of more ≡ fold with_rule (app_of command.entry) doing_options) }
{
    let count = with_option(alloc, command, "count", ArgAction::Set)?;
    let script = with_option(alloc, count, "script", ArgAction::Set)?;
    with_option(alloc, script, "brief", ArgAction::SetTrue)
}

// The command: a name, the words after it, five options that take a value each, and a flag. The
// error is want of memory.
pub fn command_line<'a>(alloc: Global) -> Result<Command<'a>, AllocError>
    ensures { IfOk result (λ command. app_of command ≡ command_line) }
{
    let words = words_alone(alloc)?;
    let reading = with_reading(alloc, words)?;
    with_doing(alloc, reading)
}
