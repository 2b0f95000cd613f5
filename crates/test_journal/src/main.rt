//! The program `test_journal`: makes journals, opens and commits them over disks that fail, and
//! compares what comes of it with what is written.
//!
//! Each file of `data/` has cases, between which an empty line stands. A case is its name and a
//! call on each further line, with its answer behind ` -> `, which is `ok` where none is written.
//! After `each RANGES` the indented lines are done for each number N of these ranges:
//!
//! | call | what it does, and answers |
//! |---|---|
//! | `file GATE NEW ENTRIES COUNT PAGES LOG` | forges a file: gate, descriptor, count, pages, log |
//! | `raw BYTES` | a file of just these |
//! | `set OFFSET BYTE`, `xor OFFSET BYTE` | changes a byte of the file |
//! | `mark` | puts ee into each place of the first four blocks at which nobody looks |
//! | `cut LENGTH`, `fill LENGTH BYTE`, `uneven` | cuts it, or puts bytes or a page behind it |
//! | `file-length` | the length of the file |
//! | `disk`, `fused-disk CALLS`, `faulty-disk CALL` | a disk over the file, with faults or none |
//! | `take` | takes the content of the disk for the file |
//! | `make IMAGE`, `open` | a journal of one page on the disk, or the one that is there |
//! | `commit COUNT LIST`, `commit-by-parts COUNT LIST` | changes these pages; `broken` at a fault |
//! | `count`, `page PAGE`, `pages` | the number of pages, and the images of one or of all |
//! | `run PAGE`, `runs` | the same images, read with those of the pages behind them |
//! | `ahead PAGE` | the image of a page that was read so with another one, or `none` |
//! | `lost`, `kept` | the pages that a stop leaves, by that choice, or why it is not opened |
//! | `holds` | whether the disk has the bytes of the file, also once it is stopped |
//! | `length`, `number OFFSET` | of the disk's content, and the number in 4 of its bytes |
//! | `count-calls make`, `count-calls open` | from here on `calls` are those that this makes |
//! | `put PAGE IMAGE` | puts a change into a list, which is shown: pages 0 to 15 |
//! | `get PAGE`, `size`, `is-empty` | of that list |
//!
//! A number is a sum, as `calls+N`, of numerals, `N`, `calls` and `last`, which is one less. Bytes
//! are two hex digits each, or `N`. An image is its one byte, or `BYTE@PLACE`, of zeros but for
//! that place. PAGES are bytes and LIST and LOG pairs PAGE:BYTE, with commas; `-` are none. The
//! program prints a line for each case, and how many came out as written; where one did not, it
//! ends with status 1.
#![tactic(auto)]

mod change_lists;
mod commits;
mod disks;
mod files;
mod images;
mod stand;
mod words;

use stand::Stand;
use std::io;
use std::process::ExitCode;
use test_cases::{Form, try_files};

/// The files of cases.
const FILES: [&str; 7] = [
    "making", "opening", "logs", "commits", "faults", "changes", "runs",
];

const FORM: Form = Form {
    separator: " -> ",
    unwritten: "ok",
    counts_each_file: true,
};

fn main(rt: HostRuntime) -> io::Result<ExitCode> {
    let mut stand = Stand::new(rt.alloc());
    try_files(&rt, &FILES, FORM, &mut stand)
}
