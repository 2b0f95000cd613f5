// How many bytes are done, which is told while they are.
use desk_scenes::Progress;

const KILOBYTE: u64 = 1000;

const MEGABYTE: u64 = 1_000_000;

// Fewer bytes than these are told in kilobytes.
const MANY: u64 = 10_000_000;

/// What is done with bytes.
#[derive(Clone, Copy)]
pub enum ByteWork {
    /// They are copied.
    Copy,
    /// They are read.
    Read,
    /// They are written.
    Write,
}

/// Tells how many of all bytes are copied, read or written.
pub fn tell_bytes<E: Progress>(teller: &mut E, work: ByteWork, done: u64, all: u64) {
    if all < MANY {
        let what = match work {
            ByteWork::Copy => "kB copied",
            ByteWork::Read => "kB read",
            ByteWork::Write => "kB written",
        };
        teller.progress(what, done / KILOBYTE, all / KILOBYTE);
    } else {
        let what = match work {
            ByteWork::Copy => "MB copied",
            ByteWork::Read => "MB read",
            ByteWork::Write => "MB written",
        };
        teller.progress(what, done / MEGABYTE, all / MEGABYTE);
    }
}
