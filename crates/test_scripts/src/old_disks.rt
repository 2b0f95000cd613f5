// Files of layout 1, as a program wrote them that made no other layout.
use std::alloc::Global;
use std::io;
use tune_disk::{Disk, MemoryDisk};

/// What has a byte other than 0 in a file of layout 1 without a tune, and its last byte: the magic,
/// one page, and the version in that page.
const OLD_FILE: [(u64, &[u8]); 4] = [
    (0, b"ABCTUNE1"),
    (12_291, &[1]),
    (16_387, &[1]),
    (20_479, &[0]),
];

// A disk with a file of layout 1 without a tune.
pub(crate) fn old_disk(alloc: Global) -> io::Result<MemoryDisk> {
    let mut disk = MemoryDisk::new(alloc);
    for (at, bytes) in OLD_FILE {
        if disk.write_at(at, bytes).is_err() {
            return Err(io::ErrorKind::OutOfMemory.into());
        }
    }
    Ok(disk)
}
