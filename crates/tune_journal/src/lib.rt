//! A journal: a list of pages of 4,096 bytes on a disk, changed as a whole or not at all.
//!
//! A commit writes a log of the pages that change (a redo journal), opens a gate (the commit mark),
//! puts the images into their pages and closes the gate. At every moment a stop (a crash or power
//! loss) leaves the pages from before the commit or those from after it, and once it answered `Ok`
//! those from after it alone. Opening a file ends a commit that was stopped behind its open gate.
#![tactic(auto)]

mod ahead;
mod changes;
mod commit;
mod file_offsets;
mod journal;
mod look;
mod make;
mod open;
mod open_fault;
mod recover;
mod states;

pub use changes::{Changes, PageImage};
pub use journal::Journal;
pub use open_fault::{Broken, OpenFault, Refused};
pub use states::{Applied, Logged, Opened};
