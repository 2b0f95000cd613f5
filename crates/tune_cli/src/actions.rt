// What the program does for its words.
ghost use Rattle.std.specs.Prelude.{◌≡◌, [], Some, IfOk, IfErr, IfSome, map, string_bytes};
ghost use Rattle.tune_scripts.specs.Streams.{streams_in};
ghost use Rattle.tune_cli.specs.Acts.{Acts, ListsScript, deeds_in};
ghost use Rattle.tune_cli.specs.Headline.{Headline, RunsInMemory};
ghost use Rattle.tune_cli.specs.CommandLine.{subcommand_in, name_of, file_in, file_of};
ghost use Rattle.tune_cli.specs.CommandLine.{faults_in, FaultFits};
ghost use Rattle.tune_cli.specs.ProgramLines.{status_of};

use crate::command_line::{Action, WordsFault, asked, command_line};
use crate::file_actions::{FileAction, on_file};
use std::alloc::Global;
use tune_disk::{Disk, Drive};
use tune_scripts::{Console, RunEnd, run};
use tune_store::ListArchive;

/// What the words of the program ask for, its name being the first of them.
///
/// The error is `Clap` where the words do not parse, where help or the version is asked for, and
/// out of memory; it is `Missing` where they parse and have no subcommand. Words that parse, and
/// have a subcommand on a file, have a FILE: `Missing` never stands for one that is not there.
pub fn action(alloc: Global, words: &[String]) -> Result<Action, WordsFault>
    ensures subcommand { let given = map string_bytes words.entry.now in
        IfOk result (λ action. subcommand_in given ≡ Some (name_of action)) }
    ensures file { let given = map string_bytes words.entry.now in
        IfOk result (λ action. IfSome (file_of action) (λ file. file_in given ≡ Some file)) }
    ensures parsed { IfOk result (λ _. faults_in (map string_bytes words.entry.now) ≡ []) }
    ensures fault { IfErr result (FaultFits (map string_bytes words.entry.now)) }
{
    let matches = match command_line(alloc)?.try_get_matches_from(words) {
        Ok(matches) => matches,
        Err(error) => return Err(WordsFault::Clap(error)),
    };
    match matches.subcommand() {
        None => Err(WordsFault::Missing),
        Some((name, found)) => asked(alloc, name, found.get_str("FILE")),
    }
}

/// Does what is asked, and gives the status: 0 where it was done, and a script run to its end; 3
/// where no archive stands in the file, or a file that is to be made has bytes; and else 1. A file
/// that cannot be opened or made is answered `refused 22 Device`.
///
/// What the clause says of the commands that are carried out, of the device, of faults and of the
/// status holds of every console. That they are those of the input, and what is written, is said of
/// a console that tells its bytes. Standard input tells none. Of a file it says what `make_on`,
/// `run_on`, `check_on` and `upgrade_on` say of the disk that the drive gave for the file's path,
/// that the disk that came of it was closed, and that the drive was asked for nothing else. `make`
/// alone asks for a file that may have to be made.
pub fn act<C: Console, D: Disk, T: AllocGlobal + Drive<Disk = D>>(
    drive: &mut T,
    action: &Action,
    console: &mut C,
) -> u8
    ensures headline { Headline D.Disk action.now (streams_in C.Console console.old console.new)
        (deeds_in T.Drive drive.old drive.new) result }
    ensures acts { Acts D.Disk action.now (streams_in C.Console console.old console.new)
        (deeds_in T.Drive drive.old drive.new) result }
{
    match action {
        Action::List => list(drive.alloc(), console),
        Action::Make(file) => on_file(drive, file, FileAction::Make, console),
        Action::Run(file) => on_file(drive, file, FileAction::Run, console),
        Action::Check(file) => on_file(drive, file, FileAction::Check, console),
        Action::Upgrade(file) => on_file(drive, file, FileAction::Upgrade, console),
    }
}

// Runs the script of the console on an empty archive in memory.
fn list<C: Console>(alloc: Global, console: &mut C) -> u8
    ensures headline { RunsInMemory (streams_in C.Console console.old console.new) result }
    ensures lists { ListsScript (streams_in C.Console console.old console.new) result }
{
    let mut archive = ListArchive::new(alloc);
    let end = run(alloc, console, &mut archive);
    status(end)
}

/// The status that tells how a run ended: 0 at the input's end, and else 1.
pub fn status(end: RunEnd) -> u8
    ensures { result ≡ status_of end }
{
    match end {
        RunEnd::Ended => 0,
        _ => 1,
    }
}
