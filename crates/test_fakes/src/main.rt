//! The program `test_fakes`: scripts over the fake stores of `test_stores`, and questions to a
//! catalog of which some texts cannot be read.
//!
//! `data/cases` has a call on each line, and ` = ` with the answer that is wanted:
//!
//!     import               what an import and two questions come to, by the trait of stores alone
//!     recorded MOST NAME   how the run of NAME.script ends over a store that keeps a record of at
//!                          most so many entries, the program's status, and the entries
//!     disk CALLS LEN NEXT  the same over a store whose disk fails after so many calls; how the run
//!                          after it ends; and what the store answers then. Of disk.replies the
//!                          first bytes are wanted, so many, and then, where the store is closed,
//!                          that the device failed; of the run after it NEXT.replies
//!     device NAME, memory NAME
//!                          what a catalog answers whose second text cannot be read, since the
//!                          device fails or memory runs out
//!
//! NAME.replies has the replies of NAME.script. The program prints a line for each call, and how
//! many answered as written; where one did not, it ends with status 1.
#![tactic(auto)]

mod calls;
mod disks;
mod faulty_catalog;
mod records;

use calls::Fakes;
use std::io;
use std::process::ExitCode;
use test_cases::{Form, try_lines};

const FORM: Form = Form {
    separator: " = ",
    unwritten: "",
    counts_each_file: false,
};

fn main(rt: HostRuntime) -> io::Result<ExitCode> {
    let tally = try_lines(&rt, "cases", FORM, &mut Fakes { rt: &rt })?;
    tally.tell_count(&rt, "calls")?;
    Ok(tally.exit_code())
}
