// The words of the program: what they may ask for, how they are read, and what is told where they
// ask for nothing.
ghost use Rattle.std.specs.Prelude.{◌≡◌, ◌≢◌, ◌⊎◌, Some, None, false, IfOk, IfErr, IfSome, IsOk};
ghost use Rattle.std.specs.Prelude.{codes, fold, map, option_map};
ghost use Rattle.clap.specs.Words.{app_of, new_app};
ghost use Rattle.clap.specs.declared.builder.command.Command.TheViews.{out-Command};
ghost use Rattle.tune_cli.specs.CommandLine.{tunes_app, tunes_alone, file_app, with_more};
ghost use Rattle.tune_cli.specs.CommandLine.{name_of, file_of};
ghost use Rattle.tune_cli.specs.CommandLine.{IsOutOfMemory, status_of_fault};
ghost use Rattle.tune_cli.specs.Inside.Subcommands.{IsSubcommand};
ghost use Rattle.tune_cli.specs.declared.command_line.WordsFault.TheVariants.{Missing};

use clap::error::ErrorKind;
use clap::{Arg, Command, Error};
use std::alloc::{AllocError, Global};
use std::io;

/// The version of the program: `tunes --version` prints it.
pub const VERSION: &str = "0.1.0";

/// What the program is asked to do. A file is named by its path, taken as it stands.
#[derive(Debug, PartialEq, Eq, Drop)]
pub enum Action {
    /// Run a script on an empty archive in memory.
    List,
    /// Make an empty archive in this file.
    Make(String),
    /// Run a script on the archive in this file.
    Run(String),
    /// Open the archive in this file, and tell how much it holds.
    Check(String),
    /// Bring the archive in this file to layout 2.
    Upgrade(String),
}

/// Why words ask for nothing.
#[derive(Drop)]
pub enum WordsFault {
    /// The words do not parse, help or the version was asked for, or out of memory: the error tells
    /// which, and has a text to print.
    Clap(Error),
    /// They parse, and have no subcommand. (A subcommand on a file does not parse without a FILE.)
    Missing,
}

impl From<AllocError> for WordsFault {
    ghost use Rattle.tune_cli.specs.CommandLine.{IsOutOfMemory};

    ghost from_gives = { λ _ fault. IsOutOfMemory fault };

    fn from(e: AllocError) -> WordsFault {
        WordsFault::Clap(Error::from(e))
    }
}

// The subcommands on a file: the name of each, and what it does.
const FILE_COMMANDS: [(&str, &str); 4] = [
    ("make", "Makes an empty archive in FILE"),
    (
        "run",
        "Runs the script of standard input on the archive in FILE",
    ),
    ("check", "Tells how much the archive in FILE holds"),
    ("upgrade", "Brings the archive in FILE to layout 2"),
];

// The program's command line.
pub(crate) fn command_line<'a>(alloc: Global) -> Result<Command<'a>, AllocError>
    ensures { IfOk result (λ command. app_of command ≡ tunes_app) }
{
    let listing = program(alloc).subcommand(list(alloc))?;
    with_file_commands(alloc, listing, &FILE_COMMANDS)
}

fn with_file_commands<'a>(
    alloc: Global,
    command: Command<'a>,
    rows: &'static [(&'static str, &'static str)],
) -> Result<Command<'a>, AllocError>
    ensures { IfOk result (λ all. app_of all
        ≡ fold with_more (app_of command.entry) (map (λ row. file_app row.0.now) rows.now)) }
{
    let mut all = command;
    for row in rows {
        all = all.subcommand(file_command(alloc, row.0, row.1)?)?;
    }
    Ok(all)
}

// The program, before its subcommands.
fn program<'a>(alloc: Global) -> Command<'a>
    ensures { app_of result ≡ tunes_alone }
{
    Command::new(alloc, "tunes")
        .about("An archive of tunes in ABC notation")
        .version(VERSION)
        .disable_help_subcommand(true)
}

fn list<'a>(alloc: Global) -> Command<'a>
    ensures app { app_of result ≡ new_app (codes "list") }
    ensures local { (out-Command result).has_globals ≡ false }
{
    Command::new(alloc, "list").about(
        "Runs the script of standard input on an empty archive in memory",
    )
}

// A subcommand on a file.
fn file_command<'a>(alloc: Global, name: &'a str, about: &'a str) -> Result<Command<'a>, AllocError>
    ensures app { IfOk result (λ command. app_of command ≡ file_app name.now) }
    ensures local { IfOk result (λ command. (out-Command command).has_globals ≡ false) }
{
    let file = Arg::new(alloc, "FILE")
        .help("The path of the archive")
        .required(true);
    Command::new(alloc, name).about(about).arg(file)
}

// What a subcommand asks for, with the FILE that was given to it.
pub(crate) fn asked(alloc: Global, name: &str, file: Option<&str>) -> Result<Action, WordsFault>
    requires { IsSubcommand name.now }
    ensures name { IfOk result (λ action. name_of action ≡ name.now) }
    ensures file { IfOk result (λ action.
        IfSome (file_of action) (λ path. option_map (λ given. given.now) file.entry ≡ Some path)) }
    ensures fault { IfErr result (λ fault. IsOutOfMemory fault
        ⊎ ((fault ≡ Missing) × (name.now ≢ codes "list") × (file.entry ≡ None))) }
{
    match (name, file) {
        ("list", _) => Ok(Action::List),
        ("make", Some(file)) => Ok(Action::Make(String::from_str(alloc, file)?)),
        ("run", Some(file)) => Ok(Action::Run(String::from_str(alloc, file)?)),
        ("check", Some(file)) => Ok(Action::Check(String::from_str(alloc, file)?)),
        ("upgrade", Some(file)) => Ok(Action::Upgrade(String::from_str(alloc, file)?)),
        _ => Err(WordsFault::Missing),
    }
}

/// Prints why words ask for nothing, and gives the status: help and the version, on standard
/// output, with 0; out of memory, there too, with 1; anything else on standard error, with 2, also
/// where that cannot be written. The error is that of standard output.
pub fn report<T: Print + Eprint>(rt: &T, fault: &WordsFault) -> io::Result<u8>
    ensures status { IfOk result (λ status. status ≡ status_of_fault fault.now) }
    ensures bad_words { status_of_fault fault.now ≡ 2 → IsOk result }
{
    let WordsFault::Clap(error) = fault else {
        let _ = eprintln!(rt; "tunes: no command is given; `tunes --help` lists them");
        return Ok(2);
    };
    match error.kind() {
        ErrorKind::OutOfMemory => {
            println!(rt; "refused 21 OutOfMemory")?;
            Ok(1)
        }
        ErrorKind::DisplayHelp | ErrorKind::DisplayVersion => {
            error.print(rt)?;
            Ok(0)
        }
        _ => {
            let _ = error.print(rt);
            Ok(2)
        }
    }
}
