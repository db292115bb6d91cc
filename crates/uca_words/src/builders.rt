//! The command `uca` as it is described to `clap`.

ghost use Rattle.std.specs.Prelude.{◌≡◌, false, IfOk};
ghost use Rattle.clap.specs.Words.{App, new_app, rule_of};
ghost use Rattle.uca_words.specs.Command.{StandsFor, bare_app, changing_app, line_app, rules_app, uca_app};
ghost use Rattle.uca_words.specs.inside.Subcommands.{argument_rule, subcommand_app, with_one, with_subcommands};

use crate::subcommands::{
    Argument, CHANGES_COMMANDS, LINE_COMMANDS, RULES_COMMANDS, STORED_COMMANDS, Subcommand,
};
use clap::{Arg, ArgAction, Command};
use std::alloc::{AllocError, Global};

// What `--version` prints after the name: the version, the Unicode edition of the normalization, and the logic of the kit that proves it.
// `tools/pages/packaging.py` compares the logic with that of the machine's kit.
const VERSION: &str =
    "0.1.0 (normalization of Unicode 18.0.0, proved in Rattle's logic dac8208d650f15bf)";

// The argument as it is described to `clap`.
fn described<'a>(alloc: Global, argument: Argument<'a>) -> Arg<'a>
    ensures rule { rule_of result ≡ argument_rule argument.entry }
    ensures local { result.global ≡ false }
{
    match argument {
        Argument::Word { id, name, help } => Arg::new(alloc, id)
            .required(true)
            .value_name(name)
            .help(help),
        Argument::Value { id, name, help } => Arg::new(alloc, id)
            .long(id)
            .value_name(name)
            .help(help),
        Argument::Flag { id, help } => Arg::new(alloc, id)
            .long(id)
            .action(ArgAction::SetTrue)
            .help(help),
    }
}

// A subcommand before its arguments.
fn named<'a>(alloc: Global, subcommand: &Subcommand<'a>) -> Command<'a>
    ensures { StandsFor (new_app subcommand.now.name.now) result }
{
    let command = Command::new(alloc, subcommand.name)
        .about(subcommand.line)
        .long_about(subcommand.text)
        .after_help(subcommand.example);
    match subcommand.usage {
        Some(usage) => command.override_usage(usage),
        None => command,
    }
}

// A subcommand with its arguments.
fn subcommand<'a>(alloc: Global, subcommand: &Subcommand<'a>) -> Result<Command<'a>, AllocError>
    ensures { IfOk result (StandsFor (subcommand_app subcommand.now)) }
{
    let mut command = named(alloc, subcommand);
    for argument in subcommand.arguments {
        command = command.arg(described(alloc, *argument))?;
    }
    Ok(command)
}

// The command before its subcommands.
fn bare_command<'a>(alloc: Global) -> Command<'a>
    ensures { StandsFor bare_app result }
{
    Command::new(alloc, "uca")
        .about(
            "Unicode collation (UTS #10): prints sort keys, sorts and compares by a table of weights; tailors and audits tables, mends stored keys",
        )
        .after_help("`uca COMMAND --help` says more of each, with an example.")
        .version(VERSION)
        .subcommand_required(true)
}

// One more subcommand.
fn take_subcommand<'a>(
    alloc: Global,
    command: Result<Command<'a>, AllocError>,
    each: &Subcommand<'a>,
) -> Result<Command<'a>, AllocError>
    ensures { (app : App) → IfOk command.entry (StandsFor app) → IfOk result (StandsFor (with_one app each.now)) }
{
    match command {
        Ok(command) => match subcommand(alloc, each) {
            Ok(below) => command.subcommand(below),
            Err(error) => {
                drop(command);
                Err(error)
            }
        },
        Err(error) => Err(error),
    }
}

// More subcommands.
fn take_subcommands<'a>(
    alloc: Global,
    command: Result<Command<'a>, AllocError>,
    subcommands: &[Subcommand<'a>],
) -> Result<Command<'a>, AllocError>
    ensures { (app : App) → IfOk command.entry (StandsFor app) → IfOk result (StandsFor (with_subcommands app subcommands.now)) }
{
    let mut command = command;
    for each in subcommands {
        command = take_subcommand(alloc, command, each);
    }
    command
}

// The command with its first four subcommands.
fn line_commands<'a>(alloc: Global) -> Result<Command<'a>, AllocError>
    ensures { IfOk result (StandsFor line_app) }
{
    take_subcommands(alloc, Ok(bare_command(alloc)), LINE_COMMANDS)
}

// And with those of tailorings after them.
fn rules_commands<'a>(alloc: Global) -> Result<Command<'a>, AllocError>
    ensures { IfOk result (StandsFor rules_app) }
{
    take_subcommands(alloc, line_commands(alloc), RULES_COMMANDS)
}

// And with those of changes after them.
fn changing_commands<'a>(alloc: Global) -> Result<Command<'a>, AllocError>
    ensures { IfOk result (StandsFor changing_app) }
{
    take_subcommands(alloc, rules_commands(alloc), CHANGES_COMMANDS)
}

/// The command with all its subcommands.
pub(crate) fn uca_command<'a>(alloc: Global) -> Result<Command<'a>, AllocError>
    ensures { IfOk result (StandsFor uca_app) }
{
    take_subcommands(alloc, changing_commands(alloc), STORED_COMMANDS)
}
