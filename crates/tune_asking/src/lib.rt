//! Questions of one's own to a store of tunes: what an order looks at before it tells, or changes,
//! something.
//!
//! A call that asks is a few of the store's own questions, one after another: it changes nothing.
#![tactic(auto)]

mod shelf;
mod store_questions;
mod written;

pub use shelf::all_numbers;
pub use store_questions::{ask, tune_of};
pub use written::write_tune;
