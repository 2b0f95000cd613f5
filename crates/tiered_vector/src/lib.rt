//! Tiered vectors: lists in which an item comes to any place, or goes from it, while few others
//! move.
//!
//! The items stand in one memory. The first of them are in rings of 1023, each of which begins
//! anywhere in its part; what is left stands behind the rings as it is. Where an item goes, the
//! others of its ring close up, and of each later ring the first item takes the place that is free
//! in the ring before, by one move, and the ring begins one place further.
#![tactic(auto)]

mod rings;
mod tiered_vector;

pub use tiered_vector::TieredVector;
