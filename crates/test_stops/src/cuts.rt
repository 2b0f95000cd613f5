// Files of archives that are cut.
use crate::files::{bad_line, number_at, part, write_bytes};
use crate::page_numbers::page_offset;
use crate::scripts::held;
use std::alloc::Global;
use std::io;
use tune_archive::Archive;
use tune_disk::MemoryDisk;
use tune_journal::OpenFault;

/// Where the number of pages stands.
const PAGES_OFFSET: usize = 12_288;

/// A file is cut behind each of so many bytes.
const BYTES_BETWEEN: usize = 61;

// Whether each cut of a file inside its pages is refused: below 8 bytes as no archive, else as a
// damaged one. The disk is handed back by each opening, and grows by a byte.
pub(crate) fn is_cut_refused(alloc: Global, file: &[u8]) -> io::Result<bool> {
    let size = page_offset(number_at(file, PAGES_OFFSET, 4)).min(file.len());
    let mut disk = MemoryDisk::new(alloc);
    for length in 0..size {
        let wanted = if length < 8 {
            OpenFault::NotArchive
        } else {
            OpenFault::Damaged
        };
        let Err(refused) = Archive::open(alloc, disk) else {
            return Ok(false);
        };
        if refused.why != wanted {
            return Ok(false);
        }
        disk = refused.disk;
        let at = u32::try_from(length).map_err(|_| bad_line())?;
        write_bytes(&mut disk, at, part(file, length, 1))?;
    }
    Ok(size > 0)
}

// Whether a file, cut anywhere, is refused, or holds this state.
pub(crate) fn is_cut_whole(alloc: Global, file: &[u8], state: &[u8]) -> io::Result<bool> {
    for count in 0..file.len() / BYTES_BETWEEN {
        let cut = part(file, 0, count.saturating_mul(BYTES_BETWEEN));
        match held(alloc, MemoryDisk::from_bytes(alloc, cut)?)? {
            Some(left) if left.as_slice() != state => return Ok(false),
            Some(_) => {}
            None => {
                if !is_none_or_damaged(alloc, cut)? {
                    return Ok(false);
                }
            }
        }
    }
    Ok(true)
}

// Whether a file is refused as no archive, or as a damaged one.
fn is_none_or_damaged(alloc: Global, file: &[u8]) -> io::Result<bool> {
    match Archive::open(alloc, MemoryDisk::from_bytes(alloc, file)?) {
        Ok(_) => Ok(false),
        Err(refused) => Ok(matches!(refused.why, OpenFault::NotArchive | OpenFault::Damaged)),
    }
}
