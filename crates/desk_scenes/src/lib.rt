//! What every order of the front end does alike: it opens FILE and closes it, prints, writes a
//! result to a file, and says in words what is wrong.
#![tactic(auto)]

mod file_opening;
mod input;
mod kept_entries;
mod printing;
mod progress;
mod reasons;
mod result_files;
mod standard_streams;
mod unanswered;

pub use file_opening::{Unopened, bring_to_rest, open_once, open_to_read};
pub use input::read_input;
pub use kept_entries::{keep_entry, keep_mark};
pub use printing::{print, print_counts};
pub use progress::Progress;
pub use reasons::{
    BAD_WORDS, DONE, REFUSED, desk_reason, say, say_held_tune, say_refusal, say_unanswered,
    say_unkept, say_unopened, say_unopened_to_change, say_unwritten,
};
pub use result_files::write_file;
pub use standard_streams::StandardStreams;
pub use unanswered::Unanswered;
