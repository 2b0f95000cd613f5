//! Queries for tunes: which tunes one finds by title, rhythm, key or opening notes.
//!
//! A query is made ready once, by `Query::sought`, and then tried on the text of each tune. Which
//! tunes it finds is said here alone, so every store finds the same ones. No call takes memory, and
//! the only error is that a query asks for nothing.
#![tactic(auto)]

mod queries;
mod sought;

pub use queries::{LONGEST_QUERY, Query, QueryText};
pub use sought::Sought;
pub use tune_incipit::BadQuery;
