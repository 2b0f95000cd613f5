//! The program `test_disks`: makes calls of disks, and compares what they answer with what is
//! written.
//!
//! Each file of `data/` has cases, between which an empty line stands. A case is its name and a
//! call on each further line, with its answer behind ` -> `, which is `ok` where none is written:
//!
//! | call | what it does, and answers |
//! |---|---|
//! | `memory BYTES` | a new disk in memory |
//! | `fuse N`, `one-fault N` | puts a fuse of N calls round the disk, or one fault at call N |
//! | `inner` | takes all that was put round the disk off |
//! | `len`, `read AT N`, `write AT BYTES`, `sync` | the calls of a disk; `fault` where one fails |
//! | `bytes`, `lost`, `kept` | what a disk in memory holds, or a stop leaves of it by that choice |
//! | `fill BYTE` | what a stop leaves that fills with this byte what was not stable |
//! | `leave` | goes on with what a stop leaves (kept), and puts the disk aside |
//! | `swap` | goes on with the disk that was put aside |
//! | `create PATH`, `open PATH`, `close` | a disk over a file, until it is closed |
//! | `opens-as-system PATH` | whether both do just where the system lets this user write there |
//! | `put PATH BYTES`, `get PATH`, `exists PATH` | a file as others write it and read it |
//! | `rename PATH TO`, `remove PATH` | gives a file another name, or takes its name away |
//! | `link PATH TO`, `read-only PATH` | makes a symbolic link, or takes the leave to write away |
//! | `lock PATH`, `unlock` | another's lock of a file |
//! | `pipe` | makes a pipe, whose ends are the paths `<` and `>` |
//!
//! In BYTES and PATH a `.` is the byte 0, a `_` is a blank, and `-` alone is no byte. A PATH that
//! begins with `@` is in a folder of the case. The program prints a line for each case, and how
//! many came out as written; where one did not, it ends with status 1.
#![tactic(auto)]

mod bytes;
mod devices;
mod disk_calls;
mod files;
mod stand;

use stand::Stand;
use std::fs::{File, Files};
use std::path::Path;
use std::process::ExitCode;
use std::{env, fs, io};
use test_cases::{Form, try_files};

/// The files of cases.
const FILES: [&str; 4] = ["memory", "stops", "failing", "files"];

const FORM: Form = Form {
    separator: " -> ",
    unwritten: "ok",
    counts_each_file: true,
};

fn main(rt: HostRuntime) -> io::Result<ExitCode> {
    let id = std::process::id(rt.process());
    let name = format!(in rt.alloc(); "test_disks-{id}")?;
    let folder = env::temp_dir(&rt)?.join(rt.alloc(), name.as_str())?;
    try_in_folder(&rt, folder.as_path())
}

// Tries all cases with a folder, which is taken away behind them.
fn try_in_folder<R: Files<File = File> + Print + AllocGlobal>(
    rt: &R,
    folder: Path<'_>,
) -> io::Result<ExitCode> {
    fs::create_dir(rt, folder)?;
    let mut stand = Stand::new(rt, folder);
    let code = try_files(rt, &FILES, FORM, &mut stand);
    fs::remove_dir_all(rt, folder)?;
    code
}
