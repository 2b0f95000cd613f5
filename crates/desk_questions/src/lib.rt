//! Questions over a store of tunes, and the bytes that are told.
//!
//! A question is a few of the store's own questions, one after another: it changes nothing. What
//! is told is a function of what the store stands for (`specs/Told.antt`), whatever the store.
#![tactic(auto)]

mod conditions;
mod dumps;
mod found_numbers;
mod laws;
mod numbers;
mod same_tunes;
mod told_answers;
mod told_rows;
mod told_twins;

pub use laws::law_of_dumps;
pub use told_answers::tell;
