//! Pages of an archive: which of them are in use, chains of them that hold bytes, and works, which
//! change them as a whole or not at all.
//!
//! A work is begun, takes and frees pages and puts images and chains on them, and is finished. A
//! work that is dropped changed nothing. At every moment of `finish` a stop (a crash or power loss)
//! leaves the pages from before the work or those from after it.
//!
//! An `Edit` is pages with a work that fits them: what changes an archive takes one of these.
#![tactic(auto)]

mod cached;
mod change;
mod fault;
mod finish;
mod laws;
mod link;
mod opening;
mod page_edits;
mod page_marks;
mod pages;
mod read;
mod walk;
mod work;

pub use fault::{ClaimFault, Fault};
pub use laws::{law_of_chains, law_of_frames, law_of_free_pages, law_of_works};
pub use link::pages_for;
pub use opening::Opening;
pub use page_edits::Edit;
pub use pages::Pages;
pub use work::Work;
