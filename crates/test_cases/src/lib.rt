//! What the programs that read cases have in common.
//!
//! A file of data has cases, between which an empty line stands; lines that begin with `#` are
//! passed over. The first line of a case is its name, or `case NAME`, behind which more may be
//! given; each other line is a call, with the answer that is wanted behind it, as a [`Form`] has
//! it. Where the first line ends in ` for FIRST to LAST` the case is made once for each of these
//! numbers. Behind a line `each RANGES` the lines that begin with two blanks are made for each
//! number of these ranges, `FIRST..END` or `NUMBER`. In either, `@` is the number.
//!
//! A program has a [`Bench`], on which the calls of a case are made, and lends it to [`try_files`],
//! [`try_file`] or [`try_lines`]. A case comes out as written where each call is answered as
//! written; of one that does not, the first call that is answered otherwise is printed. A call
//! writes to an [`Answer`] without a `Result`, and takes its [`Words`] one after the other.
#![tactic(auto)]

mod answer;
mod benches;
mod bytes;
mod cases;
mod tally;
mod words;

pub use answer::Answer;
pub use benches::{Bench, Form};
pub use bytes::{Bytes, lay_bytes, read_bytes, read_hexadecimal, unquoted};
pub use cases::{line_of, try_file, try_files, try_lines};
pub use tally::Tally;
pub use words::{Words, no_data};
