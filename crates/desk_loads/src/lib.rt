//! Archives that are made of scripts, and archives that are brought to layout 2.
#![tactic(auto)]

mod filling;
mod layout_changes;
mod load_reasons;
mod script_console;
mod script_loads;

pub use layout_changes::upgrade;
pub use script_loads::load;
