// The command line, by the parser's own rules, from the table of commands.
ghost use Rattle.std.specs.Prelude.{◌≡◌, fold, map, IfOk};
ghost use Rattle.clap.specs.Words.{App, app_of, new_rule, with_rule, with_subcommand};
ghost use Rattle.desk_words.specs.DeskCommands.{flag_rule, option_rule, one_rule, many_rule};
ghost use Rattle.desk_words.specs.DeskCommands.{several_rule, program_alone, desk_app};
ghost use Rattle.desk_words.specs.DeskCommands.{with_commands};
ghost use Rattle.desk_words.specs.Inside.Commands.{HasApp, HasRule};
ghost use Rattle.desk_words.specs.Inside.CommandTable.{argument_rule, lettered_rule};
ghost use Rattle.desk_words.specs.Inside.CommandTable.{repeated_rule, row_app};

use crate::asked::VERSION;
use crate::command_table::{Argument, COMMANDS, CommandRow, HelpText, PROGRAM_ARGUMENTS};
use crate::usage::USAGE;
use clap::{Arg, ArgAction, Command};
use std::alloc::{AllocError, Global};

// An option without a value.
fn flag<'a>(alloc: Global, name: &'a str, help: &'a str) -> Arg<'a>
    ensures { HasRule result (flag_rule name.now) }
{
    Arg::new(alloc, name)
        .long(name)
        .help(help)
        .action(ArgAction::SetTrue)
}

// An option with a value.
fn option<'a>(alloc: Global, name: &'a str, value: &'a str, help: &'a str) -> Arg<'a>
    ensures { HasRule result (option_rule name.now) }
{
    Arg::new(alloc, name)
        .long(name)
        .value_name(value)
        .help(help)
}

// An option with one value or more, which may be given again.
fn repeated<'a>(alloc: Global, name: &'a str, value: &'a str, help: &'a str) -> Arg<'a>
    ensures { HasRule result (repeated_rule name.now) }
{
    option(alloc, name, value, help)
        .num_args(1..)
        .action(ArgAction::Append)
}

// An option with a value, which is given by a letter alone.
fn lettered<'a>(
    alloc: Global,
    name: &'a str,
    letter: char,
    value: &'a str,
    help: &'a str,
) -> Arg<'a>
    ensures { HasRule result (lettered_rule name.now letter) }
{
    Arg::new(alloc, name)
        .short(letter)
        .value_name(value)
        .help(help)
}

// A word that may be given.
fn word<'a>(alloc: Global, name: &'a str, help: &'a str) -> Arg<'a>
    ensures { HasRule result (new_rule name.now) }
{
    Arg::new(alloc, name).help(help)
}

// Words that may be given.
fn several<'a>(alloc: Global, name: &'a str, help: &'a str) -> Arg<'a>
    ensures { HasRule result (several_rule name.now) }
{
    word(alloc, name, help).num_args(1..)
}

// A word that has to be given.
fn one<'a>(alloc: Global, name: &'a str, help: &'a str) -> Arg<'a>
    ensures { HasRule result (one_rule name.now) }
{
    word(alloc, name, help).required(true)
}

// Words of which one has to be given.
fn many<'a>(alloc: Global, name: &'a str, help: &'a str) -> Arg<'a>
    ensures { HasRule result (many_rule name.now) }
{
    one(alloc, name, help).num_args(1..)
}

// An argument of the table.
fn argument<'a>(alloc: Global, argument: &Argument) -> Arg<'a>
    ensures { HasRule result (argument_rule argument.now) }
{
    match argument {
        Argument::Flag(name, help) => flag(alloc, name, help),
        Argument::Valued(name, value, help) => option(alloc, name, value, help),
        Argument::Repeated(name, value, help) => repeated(alloc, name, value, help),
        Argument::Lettered(name, letter, value, help) => {
            lettered(alloc, name, *letter, value, help)
        }
        Argument::Word(name, help) => word(alloc, name, help),
        Argument::Several(name, help) => several(alloc, name, help),
        Argument::One(name, help) => one(alloc, name, help),
        Argument::Many(name, help) => many(alloc, name, help),
    }
}

// A command with these arguments behind its own.
fn with_arguments<'a>(
    alloc: Global,
    command: Command<'a>,
    arguments: &[Argument],
) -> Result<Command<'a>, AllocError>
    ensures { (app : App) → HasApp command.entry app → IfOk result
        (λ all. HasApp all (fold with_rule app (map argument_rule arguments.now))) }
{
    let mut all = command;
    for more in arguments {
        all = all.arg(argument(alloc, more))?;
    }
    Ok(all)
}

// A command with what help says of it, which is nothing to the parser.
fn with_help<'a>(command: Command<'a>, help: &HelpText) -> Command<'a>
    ensures { (app : App) → HasApp command.entry app → HasApp result app }
{
    match help {
        HelpText::About(about) => command.about(about),
        HelpText::WithUsage(about, usage) => command.about(about).override_usage(usage),
        HelpText::AtLength(about, at_length) => command.about(about).long_about(at_length),
    }
}

// A command of the table.
fn command<'a>(alloc: Global, row: &CommandRow) -> Result<Command<'a>, AllocError>
    ensures { IfOk result (λ command. HasApp command (row_app row.now)) }
{
    let plain = Command::new(alloc, row.name);
    with_arguments(alloc, with_help(plain, &row.help), row.arguments)
}

// A command more, where there was memory for it. It is called with what makes the command, so that
// no other one is owned meanwhile.
fn with_command<'a>(
    command: Command<'a>,
    more: Result<Command<'a>, AllocError>,
) -> Result<Command<'a>, AllocError>
    ensures { (app : App) → IfOk more.entry (λ more. HasApp more app) → IfOk result
        (λ all. app_of all ≡ with_subcommand (app_of command.entry) app.top) }
{
    match more {
        Ok(more) => command.subcommand(more),
        Err(e) => Err(e),
    }
}

// A program with these commands behind its own.
fn with_commands<'a>(
    alloc: Global,
    program: Command<'a>,
    rows: &[CommandRow],
) -> Result<Command<'a>, AllocError>
    ensures { IfOk result (λ all.
        app_of all ≡ with_commands (app_of program.entry) (map row_app rows.now)) }
{
    let mut all = program;
    for row in rows {
        all = with_command(all, command(alloc, row))?;
    }
    Ok(all)
}

// The program, before its commands.
fn program<'a>(alloc: Global) -> Result<Command<'a>, AllocError>
    ensures { IfOk result (λ command. HasApp command program_alone) }
{
    let plain = Command::new(alloc, "tunes-book")
        .override_help(USAGE)
        .version(VERSION);
    with_arguments(alloc, plain, &PROGRAM_ARGUMENTS)
}

// The command line.
pub(crate) fn command_line<'a>(alloc: Global) -> Result<Command<'a>, AllocError>
    ensures { IfOk result (λ command. app_of command ≡ desk_app) }
{
    with_commands(alloc, program(alloc)?, &COMMANDS)
}
