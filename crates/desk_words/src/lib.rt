//! The words of the program, and what they ask for.
#![tactic(auto)]

mod arranging;
mod asked;
mod change_meanings;
mod command_table;
mod desk_commands;
mod found;
mod joining;
mod order_meanings;
mod sought_conditions;
mod usage;

pub use asked::{Order, OrderFault, Target, VERSION, Words, report, words_of};
pub use sought_conditions::SoughtKind;
