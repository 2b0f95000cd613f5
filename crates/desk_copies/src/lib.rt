//! Archives as files: new ones, and copies of them.
#![tactic(auto)]

mod archive_copies;
mod archive_files;
mod copy_reasons;
mod disk_copies;
mod making;
mod put_aside;
mod restores;
mod sum_files;
mod told_bytes;

pub use archive_copies::{Copied, Copying, Uncopied, copy_archive};
pub use archive_files::{begin_archive, leave_archive, put_archive};
pub use copy_reasons::{say_sum, say_uncopied, say_unread};
pub use disk_copies::{CopyFault, copy_disk, sum_of_disk};
pub use making::make;
pub use restores::restore;
pub use sum_files::{SumFault, compare_sum, sum_path};
pub use told_bytes::{ByteWork, tell_bytes};
