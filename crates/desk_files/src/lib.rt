//! The files of the operating system as a desk, and its standard streams: what a command of the
//! front end is carried out over. Why a device failed is told on standard error.
#![tactic(auto)]

mod file_desk;
mod voice;

pub use file_desk::{FileDesk, NOTHING};
pub use voice::{ProgressLine, Voice};
