//! The words of the program, and what is done for them.
#![tactic(auto)]

mod actions;
mod command_line;
mod file_actions;

pub use actions::{act, action, status};
pub use command_line::{Action, VERSION, WordsFault, report};
pub use file_actions::{Done, check_on, make_on, run_on, upgrade_on};
pub use tune_scripts::{Console, LONGEST_LINE, MOST_LINES, RunEnd, StreamConsole, run};
