//! The program `test_archive`: books, set lists, the words of the program, scripts that are too
//! large to lie in files, readers and writers that fail, and archives in files of either layout.
//!
//! `data/` has a file of cases for each of them. A case is a block of lines: its name, and then
//! calls that are made in turn, one a line: the name of the call, its words, and ` = ` with the
//! answer that is wanted, where there is one. Which calls there are is said where they are made:
//! in books.rt, sets.rt, command_lines.rt, scripts.rt and files.rt. Bytes stand for themselves, but
//! for `\n`, `\r`, `\s`, a blank, `\xNN`, the byte of two hexadecimal digits, and `\e`, nothing.
//!
//! The program prints a line for each case, and how many came out as written; where one did not, it
//! ends with status 1.
#![tactic(auto)]

mod books;
mod command_lines;
mod escapes;
mod files;
mod many_sets;
mod no_files;
mod pieces;
mod pipes;
mod screen;
mod scripts;
mod sets;
mod wear;

use books::Books;
use command_lines::CommandLines;
use files::Files;
use scripts::Scripts;
use sets::Sets;
use std::io;
use std::process::ExitCode;
use test_cases::{Form, Tally, try_file};

const FORM: Form = Form {
    separator: " = ",
    unwritten: "",
    counts_each_file: false,
};

fn main(rt: HostRuntime) -> io::Result<ExitCode> {
    let mut tally = Tally::NONE;
    tally = tally.with(try_file(&rt, "books", FORM, &mut Books::new(rt.alloc()))?);
    tally = tally.with(try_file(&rt, "sets", FORM, &mut Sets::new(rt.alloc()))?);
    tally = tally.with(try_file(
        &rt,
        "command-lines",
        FORM,
        &mut CommandLines::new(rt.alloc()),
    )?);
    tally = tally.with(try_file(&rt, "scripts", FORM, &mut Scripts::new(rt.alloc()))?);
    tally = tally.with(try_file(&rt, "files", FORM, &mut Files::new(rt.alloc()))?);
    tally.tell_count(&rt, "cases")?;
    Ok(tally.exit_code())
}
