// The bytes of files.
use std::alloc::Global;
use std::fs::Files;
use std::{fs, io};
use tune_archive::Archive;
use tune_disk::{Disk, MemoryDisk};

/// A change has no more bytes than this.
const MOST_BYTES: usize = 4_096;

/// A file as it is made.
pub(crate) fn made_file(alloc: Global) -> io::Result<Vec<u8>> {
    match Archive::make(alloc, MemoryDisk::new(alloc)) {
        Ok(made) => {
            let disk = made.into_disk();
            Ok(disk.bytes().to_vec(alloc)?)
        }
        Err(_) => Err(io::ErrorKind::Other.into()),
    }
}

/// The file of which a file of data has the bytes that are not all 0, as changes, one a line.
pub(crate) fn kept_file<R: Files + AllocGlobal>(rt: &R, name: &str) -> io::Result<Vec<u8>> {
    let text = fs::read_to_string(rt, name)?;
    let mut disk = MemoryDisk::new(rt.alloc());
    for line in text.lines() {
        change_file(rt.alloc(), &mut disk, line)?;
    }
    Ok(disk.bytes().to_vec(rt.alloc())?)
}

/// Writes what a change says, `OFFSET=BYTES`, of which the bytes are in hexadecimal.
pub(crate) fn change_file(alloc: Global, disk: &mut MemoryDisk, change: &str) -> io::Result<()> {
    let (at, digits) = change.split_once('=').ok_or(bad_line())?;
    let at = at.parse::<u32>().map_err(|_| bad_line())?;
    write_bytes(disk, at, &bytes_of(alloc, digits)?)
}

// The bytes that pairs of digits say.
fn bytes_of(alloc: Global, digits: &str) -> io::Result<Vec<u8>> {
    let mut bytes = Vec::new(alloc);
    for pair in digits.as_bytes().chunks(2) {
        let mut byte: u8 = 0;
        for digit in pair {
            let digit = (*digit as char).to_digit(16).ok_or(bad_line())?;
            byte = byte.wrapping_mul(16).wrapping_add(digit as u8);
        }
        bytes.push(byte)?;
    }
    Ok(bytes)
}

/// Writes at an offset of a file.
pub(crate) fn write_bytes(disk: &mut MemoryDisk, at: u32, bytes: &[u8]) -> io::Result<()> {
    if bytes.len() > MOST_BYTES {
        return Err(bad_line());
    }
    disk.write_at(at as u64, bytes)
        .map_err(|_| io::ErrorKind::Other.into())
}

/// A line of data that has not its form.
pub(crate) fn bad_line() -> io::Error {
    io::ErrorKind::InvalidData.into()
}

/// So many bytes from an offset on, or fewer where the file ends.
pub(crate) fn part(file: &[u8], at: usize, count: usize) -> &[u8] {
    let from = at.min(file.len());
    let to = at.saturating_add(count).min(file.len());
    &file[from..to]
}

/// The number of so many bytes at an offset, the highest byte first; bytes past the end are none.
pub(crate) fn number_at(file: &[u8], at: usize, count: usize) -> usize {
    let mut number: usize = 0;
    for byte in part(file, at, count) {
        number = number.saturating_mul(256).saturating_add(*byte as usize);
    }
    number
}
