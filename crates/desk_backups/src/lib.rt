//! Copies of the archive, with the sum of each beside it, and copies that are checked.
#![tactic(auto)]

mod backup_reasons;
mod backups;
mod checked_copies;
mod copy_names;
mod file_copies;
mod old_copies;
mod sums_beside;

pub use backups::backup;
pub use checked_copies::check_copy;
