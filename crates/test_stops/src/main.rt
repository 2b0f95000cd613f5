//! The program `test_stops`: archives in files that stop (a crash or power loss) at each call of
//! their disk, or of whose disk a call fails once, and files that no archive wrote.
//!
//! A file of data has steps, between which a line `--` stands: each is a script of one command.
//! What an archive in memory answers after so many of them, when it is asked for all that it holds,
//! is what a stop may leave. Over a disk in memory the steps are carried out again and again, each
//! time with one more call of the disk before it fails for good: that of the opening, too. Then the
//! archive has to be closed. What a stop leaves goes on a list of files, each once: where all that
//! was written since the last sync is lost, or kept, or each byte of it is A7, or 0. So does what
//! it leaves where the program ends and the system runs on, and another one is ended while it opens
//! the disk, and one opens it whole. Each file has to be opened, and to hold the state after the
//! steps that were answered, or that after one more. Its opening is stopped at each call, and goes
//! on where it was stopped; what is left then goes on the list, too. Between two steps a stop has
//! to leave one state alone.
//!
//! `data/steps` has commands of every kind, an upgrade in their midst, and `data/leaves` those by
//! which a leaf of the index of titles becomes two, and one of them goes again: over these all is
//! lost or kept. Over the 15 of `data/commands` a stop also fills. There openings are stopped until
//! nothing new is left, by which all is lost or kept; and once more so that it is filled, too,
//! until nothing new is left where the log has at most 3 entries, and else twice in a row: k
//! entries make more than 3^k files. All begin in layout 1, whose openings take a quarter of the
//! time.
//!
//! The file at the start had two tunes, which went; it is one that a program wrote which made no
//! other layout: `data/kept` has the bytes of it that are not 0, as `OFFSET=BYTES`, and
//! `data/kept.script` the commands. `data/upgrade` has the one step over it as it is kept, and over
//! 300 tunes that `data/many.script` makes of them. There each call of the upgrade is stopped by
//! each choice, and of an opening each of the first 64 calls, those of a recovery among them, and
//! then each 61st, since an opening reads a page of each tune; by which it is all lost or kept.
//!
//! Over the steps of `data/faults` each call of the disk fails once, and no other does: the command
//! is answered so, every one behind it is refused without a call, and the file opens as before or
//! after it. Each call of an opening fails once too, of all files that a stop at a call of the
//! steps leaves: the disk comes back, and opens as it would. So it is over `data/upgrade` and the
//! kept file.
//!
//! `data/forged` is a table: changes of a made file, as `OFFSET=BYTES`, and how it is answered:
//! `NotArchive`, `Damaged`, or `layout 1` or `layout 2`, where it opens as an archive of that
//! layout without a tune. `data/jig` has the one step of an archive that has each kind of page but
//! set lists, and `data/kinds` steps to one that has all kinds, and a tune of three pages. Each
//! page of both is changed so that it has not its form; and each cut of the made file, and of that
//! of `data/jig`, inside its pages is opened. All have to be refused. The file of `data/kinds` is
//! cut at many places: it is then no archive, a damaged one, or still holds the last state.
#![tactic(auto)]

mod courses;
mod cuts;
mod faults;
mod files;
mod forged;
mod left_files;
mod openings;
mod page_numbers;
mod scripts;
mod single_faults;
mod stops;
mod sweeps;

use faults::try_faults;
use std::io;
use std::process::ExitCode;
use sweeps::try_stops;

fn main(rt: HostRuntime) -> io::Result<ExitCode> {
    let stops = try_stops(&rt)?;
    let faults = try_faults(&rt)?;
    if stops && faults {
        Ok(ExitCode::SUCCESS)
    } else {
        Ok(ExitCode::FAILURE)
    }
}
