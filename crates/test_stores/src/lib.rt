//! Two fake stores that are not in memory alone. One keeps a record of what a device held, and
//! shows that what the trait of stores says of stops can be met by a store whose stops leave
//! something. The other writes to any disk, and shows that the trait can be met over a disk that
//! fails.
#![tactic(auto)]

mod any_store;
mod asking;
mod disk_store;
mod keeping;
mod recorded_store;

pub use any_store::{apply_to_open, apply_two};
pub use disk_store::DiskStore;
pub use recorded_store::RecordedStore;
