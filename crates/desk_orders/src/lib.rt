//! What the front end does for its orders, over a desk of files and a console.
#![tactic(auto)]

mod deliveries;
mod drafts;
mod file_questions;
mod orders;

pub use orders::carry_out;
