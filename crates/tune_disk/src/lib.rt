//! Disks, and the files that a stop (a crash or power loss) may leave on them.
#![tactic(auto)]

mod buffers;
mod deed_log;
mod disk;
mod drive;
mod file;
mod fuse;
mod laws;
mod memory;
mod one_fault;

pub use deed_log::DeedLog;
pub use disk::{DeviceFault, Disk};
pub use drive::Drive;
pub use file::{Access, FileDisk, FileHistory, UnknownHistory};
pub use fuse::FuseDisk;
pub use laws::law_of_stops;
pub use memory::{MemoryDisk, StopChoice};
pub use one_fault::OneFault;
