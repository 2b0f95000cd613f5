//! Reads ABC books: the lines of a text, the tunes of a book, and the fields of a tune's header.
//!
//! The lines are those of the abc music standard 2.1, section 2.2, with this archive's profile
//! where the standard is silent. The bytes of a text need not be UTF-8.
#![tactic(auto)]

mod book;
mod carried;
mod carry_rules;
mod file_header;
mod header;
mod header_fields;
mod header_letters;
mod judged_book;
mod key_place;
mod line_kinds;
mod lines;
mod shares;
mod stored;
mod texts;
mod told_lines;
mod tune_body;
mod tune_lines;
mod values;

pub use book::{BookFault, LONGEST_BOOK, TuneFault, split_book};
pub use carry_rules::CarryRule;
pub use header::{fields, read_fields};
pub use header_fields::{Fields, MOST_TITLES, Titles};
pub use judged_book::{JudgedBook, judge_book};
pub use line_kinds::{in_part_after, is_comment, is_continuation, is_field_line, is_key_line};
pub use lines::{Line, Lines};
pub use texts::{ByteText, TuneText};
pub use tune_body::TuneBody;
pub use values::{
    field_value, is_all_blank, is_blank, trim_blanks, up_to_comment, without_comment,
};
