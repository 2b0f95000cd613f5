// How many pages scripts read and write.
use crate::archives::calls_of;
use crate::disks::Calls;
use std::fs::Files;
use std::io;
use test_cases::{Answer, Bench, Words, no_data, read_bytes};

/// How many writes a commit makes beside those of its pages, each of which it writes twice: the
/// descriptor, the gate, the number of pages, and the gate again.
const WRITES_OF_COMMIT: u64 = 4;

/// How many pages were read, and how many a commit wrote.
#[derive(Clone, Copy)]
struct PageCounts {
    reads: u64,
    writes: u64,
}

impl PageCounts {
    const NONE: PageCounts = PageCounts {
        reads: 0,
        writes: 0,
    };

    // Those of these calls, without those of an opening.
    fn of(calls: Calls, opening: Calls) -> PageCounts {
        let writes = calls.writes.saturating_sub(opening.writes);
        PageCounts {
            reads: calls.reads.saturating_sub(opening.reads),
            writes: writes.saturating_sub(WRITES_OF_COMMIT) / 2,
        }
    }

    // The greatest ones, as they are written down.
    fn read(text: &str) -> Option<PageCounts> {
        let (reads, writes) = text.split_once(' ')?;
        Some(PageCounts {
            reads: reads.parse().ok()?,
            writes: writes.parse().ok()?,
        })
    }
}

/// A call is the name of a script, which runs over the archive of a file, and is answered by how
/// many pages it reads and writes. What an opening reads is not counted.
#[derive(Drop)]
pub(crate) struct Counted<'a, R> {
    rt: &'a R,
    file: &'a [u8],
    opening: Calls,
    last: PageCounts,
}

impl<'a, R: Files + AllocGlobal> Counted<'a, R> {
    /// Over the archive of a file, which is opened once.
    pub(crate) fn over(rt: &'a R, file: &'a [u8]) -> io::Result<Counted<'a, R>> {
        let opening = calls_of(rt.alloc(), file, b"", b"")?;
        Ok(Counted {
            rt,
            file,
            opening,
            last: PageCounts::NONE,
        })
    }
}

impl<'a, R: Files + AllocGlobal> Bench for Counted<'a, R> {
    fn begin(&mut self, _given: &str) -> io::Result<()> {
        Ok(())
    }

    fn call(&mut self, name: &str, _words: Words<'_>, answer: &mut Answer) -> io::Result<()> {
        let script = read_bytes(self.rt, name, "script")?;
        let wanted = read_bytes(self.rt, name, "replies")?;
        let calls = calls_of(self.rt.alloc(), self.file, &script, &wanted)?;
        self.last = PageCounts::of(calls, self.opening);
        let PageCounts { reads, writes } = self.last;
        answer.show(format_args!("{reads} {writes}"));
        Ok(())
    }

    fn is_wanted(&self, _answer: &Answer, written: &str) -> io::Result<bool> {
        let most = PageCounts::read(written).ok_or(no_data())?;
        Ok(self.last.reads <= most.reads && self.last.writes <= most.writes)
    }
}
