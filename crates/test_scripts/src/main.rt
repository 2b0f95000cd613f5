//! The program `test_scripts`: runs scripts over archives, and compares what they come to with what
//! is written: over an empty archive in memory, over one in a file of layout 1, and over one in a
//! file that is made; and over one of 2,000 tunes, of which it counts the pages that are read and
//! written.
//!
//! `data/cases` has a line for each script: its NAME, and how its run ends. NAME.script is the
//! script, and NAME.replies has the bytes of its replies. Those of `cases-of-layout-1` run over an
//! archive that begins in that layout, in memory or in a file, and those of `cases-of-layout-2`
//! over a made one.
//!
//! The 2,000 tunes are made here: tune N has the title `Tune N`, with four digits, and the rhythm
//! `jig` where N ends in 0, else `reel`; the 20 tunes from 1,000 on are in the key of D, all others
//! in G, and each begins with notes of its own. `data/counted` has a line for each script that runs
//! over them, `NAME: READS PAGES`: how many times it may read a page, and how many pages its
//! commits may write. The archive is a made one; those of `data/counted-of-layout-1` run over one
//! of layout 1. What an opening reads is not counted: it is read once with the script, and once
//! without.
//!
//! Then the archive is exported twice, as one in memory is. Last, an archive of 2,000 reels is
//! opened on a disk that fails 50 calls after the opening: a find of one of them is answered, and
//! an export behind it is refused, since at most 1,024 pages are kept in memory.
//!
//! The program prints a line for each, and how many scripts came out as written; where something
//! did not, it ends with status 1.
#![tactic(auto)]

mod archives;
mod counted;
mod disks;
mod empty;
mod kept;
mod lists;
mod old_disks;
mod tunes;

use lists::{try_counted, try_empty};
use std::io;
use std::process::ExitCode;

fn main(rt: HostRuntime) -> io::Result<ExitCode> {
    let empty = try_empty(&rt)?;
    let counted = try_counted(&rt)?;
    Ok(empty.with(counted).exit_code())
}
