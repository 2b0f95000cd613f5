//! Scripts of commands: how they are read and run over a store of tunes, and the bytes of their
//! replies.
#![tactic(auto)]

mod console;
mod laws;
mod numbered_words;
mod replies;
mod reply_rows;
mod script_lines;
mod script_reading;
mod script_runs;
mod stream_console;

pub use console::{Console, PartRead, PieceRead};
pub use laws::law_of_prefixes;
pub use replies::{write_answer, write_counts};
pub use script_lines::LONGEST_LINE;
pub use script_runs::{MOST_LINES, RunEnd, run};
pub use stream_console::StreamConsole;
