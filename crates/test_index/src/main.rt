//! The program `test_index`: makes the calls that the files of `data/` write down, on an index in
//! pages of a disk in memory, and compares what each answers with what is written beside it.
//!
//! A file has cases, between which an empty line stands; lines that begin with `#` are passed over.
//! The first line of a case is `case NAME width WIDTH`, of keys of 4, 32 or 48 bytes; the others
//! are calls, one a line, made in turn from a file without a byte and an index without an entry on.
//! Behind a call stands ` = ANSWER`; a call without it answers `done`. A first line that ends in
//! ` for FIRST to LAST` makes the case once for each of these numbers, which stands for each `@`.
//!
//! The calls of a disk, and what they take:
//!
//! - `failing CALL`: from then on the disk fails at this one call, counted from 0.
//! - `lying CALL BYTE`: from this call on each read gives this byte alone, in two digits.
//! - `make LIMIT`: pages, of which there may be so many. `open`: an opening.
//!
//! Those of an opening are `claim-page PAGE`, `load FIRST MOST ENTRIES`, which answers whether the
//! index that is loaded has these entries, and `done LIMIT`, which gives the pages. `begin` begins
//! a change of pages, and drops the one that was begun before.
//!
//! Those of a change are `allocate`, `put-leaf PAGE COUNT ENTRIES`, a leaf that somebody forged,
//! `put-chain DIGITS`, `read-bytes PAGE FROM TO`, `in-use COUNT` (which of the first pages are in
//! use: `+`, or else `-`), and `finish`. One that was refused has ended the change.
//!
//! Those of the index are `insert ENTRIES` and `remove ENTRIES`, one after the other, `insert-all
//! ENTRIES`, `clear`, `candidates LOW HIGH`, which shows the values, and `store`. Where one is
//! refused the change has ended, and the index is one without an entry. `new` makes it so too, and
//! `in-place` puts one without an entry in its place, which keeps its list until it is stored.
//! There is another index in hand: `copy` makes it a copy anew, `copy-from` in the memory that it
//! has, and `swap` has the calls go to it.
//!
//! `close` hands the disk back. The form of keys and entries is in `entries.rt`. The program prints
//! a line for each case, and how many came out as written; where one did not, it ends with status
//! 1.
#![tactic(auto)]

mod calls;
mod disks;
mod edits;
mod entries;
mod hands;
mod held;
mod indexes;
mod openings;

use hands::Hand;
use std::io;
use std::process::ExitCode;
use test_cases::{Form, try_files};

/// The files of cases.
const FILES: [&str; 5] = ["entries", "lists", "damaged", "full", "faults"];

const FORM: Form = Form {
    separator: " = ",
    unwritten: "done",
    counts_each_file: false,
};

fn main(rt: HostRuntime) -> io::Result<ExitCode> {
    let mut hand = Hand::new(rt.alloc());
    try_files(&rt, &FILES, FORM, &mut hand)
}
