//! Changes of a store of tunes as turns: what each change comes to, how turns are brought about and
//! taken back, and how the subjects of an earlier change stand.
#![tactic(auto)]

mod bringing;
mod brought_parts;
mod carrying;
mod judging;
mod laws;
mod looking;
mod planning;
mod set_bringing;
mod set_turns;
mod tune_bringing;
mod turns;

pub use bringing::{bring_about, take_back};
pub use brought_parts::loaded_parts;
pub use judging::{PartVerdict, Verdict, judged, set_verdict, tune_verdict};
pub use laws::{law_of_bringing, law_of_undo};
pub use planning::{planned, planned_replace};
pub use turns::{Aim, Turn};
