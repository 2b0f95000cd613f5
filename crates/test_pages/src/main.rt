//! The program `test_pages`: makes the calls that the files of `data/` write down, on pages of a
//! disk in memory, and compares what each answers with what is written beside it.
//!
//! A file has cases, between which an empty line stands; lines that begin with `#` are passed over.
//! The first line of a case is `case NAME`, the others are calls, one a line, made in turn from a
//! file without a byte on. Behind a call stands ` = ANSWER`; a call without it answers `done`. The
//! first line `case NAME for FIRST to LAST` makes the case once for each of these numbers, which
//! stands for each `@` in it.
//!
//! The calls of a disk, and what they take:
//!
//! - `passing CALLS`, `failing CALL`: from then on the disk fails behind so many calls for good, or
//!   fails at this one call alone, counted from 0.
//! - `stop Lost`, `stop Kept`: what a stop leaves (a crash or power loss), with or without what was
//!   written since the last sync.
//! - `magic`: writes the magic alone. `size`: how many bytes the file has.
//! - `make LIMIT BYTES`: pages with this root, of which there may be so many. `open`: an opening.
//!
//! Those of an opening are `root`, `claim-page PAGE`, `claim-chain FIRST`, `count` (how many pages
//! there are), `claim-chain-within FIRST MOST` of at most so many pages, and `done LIMIT`, which
//! gives the pages. `limit LIMIT` changes how many pages there may be, to no fewer than before;
//! `begin` begins a work on pages. Both drop a work that was begun before.
//!
//! Those of a work are `allocate`, `free PAGE`, `put-page PAGE BYTES`, `put-chain BYTES`,
//! `free-chain FIRST`, `read-page PAGE`, `read-bytes PAGE FROM TO`, `read-chain FIRST`,
//! `is-asked-again PAGE`, `in-use COUNT` (which of the first pages are in use: `+`, or else `-`),
//! `reserve PAGES BYTES` (memory for so many more pages, and for so many bytes of chains),
//! `finish`, and `put-link PAGE NEXT SIZE`, a page of a chain that somebody forged, of bytes 0x41.
//! A work of which a call is refused is dropped.
//!
//! `edit` holds pages as an edit of them. It takes `limit`, `begin`, `finish`, and the calls of a
//! work but for `put-link` and `is-asked-again`; `end`, `check` (whether the change goes on), and
//! `refuse`, as where a caller has no memory.
//!
//! `close` hands the disk back. The form of bytes is that of `test_cases::Bytes`. The program
//! prints a line for each case, and how many came out as written; where one did not, it ends with
//! status 1.
#![tactic(auto)]

mod calls;
mod disks;
mod edits;
mod held;
mod openings;
mod works;

use held::Hand;
use std::io;
use std::process::ExitCode;
use test_cases::{Form, try_files};

/// The files of cases.
const FILES: [&str; 7] = [
    "chains", "works", "edits", "claims", "stops", "faults", "cache",
];

const FORM: Form = Form {
    separator: " = ",
    unwritten: "done",
    counts_each_file: false,
};

fn main(rt: HostRuntime) -> io::Result<ExitCode> {
    let mut hand = Hand::new(rt.alloc());
    try_files(&rt, &FILES, FORM, &mut hand)
}
