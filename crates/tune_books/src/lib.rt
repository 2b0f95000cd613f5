//! Writes ABC books and sets: a line that says which abc this is, and the tunes, each after an
//! empty line.
//!
//! The form is that of the abc music standard 2.1, sections 2.1 and 2.2, with this archive's
//! profile where the standard is silent.
#![tactic(auto)]

mod book_writer;

pub use book_writer::{BookWriter, write_book, write_set};
