//! The files of the front end, by their paths: a list of all that was done with them, and the one
//! rule by which a result is written to a file.
#![tactic(auto)]

mod begun_results;
mod desk;
mod desk_log;
mod destinations;
mod kept_names;
mod old_texts;
mod putting;
mod refusals;
mod result_checks;
mod results;

pub use begun_results::{BegunResult, ResultPlace, begin_result, finish_result};
pub use desk::{Desk, DeskFault, Standing};
pub use desk_log::DeskLog;
pub use destinations::Destination;
pub use old_texts::{OldTextsFault, grow_old_texts};
pub use refusals::{ResultFault, ResultRefusal};
pub use results::write_result;
