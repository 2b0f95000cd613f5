// What a file of the operating system told, kept for clauses alone: it takes no memory.
ghost use Rattle.std.specs.Prelude.{◌≡◌, ◌+◌, ◌≤◌, ◌^◌, length, take, IfOk, OnErr};
ghost use Rattle.tune_disk.specs.Inside.ToldMore.{IsToldRead, IsToldTaken};

use http_server::Log;
use std::io;

/// One thing that a file told of an offset.
#[derive(Clone, Copy, Debug, PartialEq, Eq)]
pub(crate) enum Told {
    /// The file has so many bytes.
    Length(u64),
    /// A read found this byte at the offset.
    Byte(u8),
    /// A read found no byte: the file ends at the offset, or before it.
    Ended,
    /// A write begins.
    Begun,
    /// The system took this byte next.
    Put(u8),
    /// It wrote its bytes from the offset on.
    Wrote,
    /// A write of so many bytes from the offset on failed.
    Broke(u64),
    /// A sync ended well.
    Synced,
}

/// Tells that a read found these bytes from an offset on.
pub(crate) fn tell_read(log: &mut Log<u64, Told>, at: u64, bytes: &[u8])
    requires { at + length bytes.now ≤ 2 ^ 40 }
    ensures { IsToldRead at (length bytes.now) bytes.now log.old.items log.new.items }
{
    for i in 0..bytes.len() {
        *log = log.and(&(at + i as u64), &Told::Byte(bytes[i]));
    }
}

/// Tells what the system answered to a write of these bytes: that it took so many of them.
pub(crate) fn tell_taken(
    log: &mut Log<u64, Told>,
    at: u64,
    bytes: &[u8],
    answer: io::Result<usize>,
) -> io::Result<usize>
    requires { IfOk answer (λ n. n ≤ length bytes.now) }
    ensures same { result ≡ answer }
    ensures ok { IfOk result (λ n. IsToldTaken (take n bytes.now) log.old.items log.new.items) }
    ensures err { OnErr result (log.new.items ≡ log.old.items) }
{
    if let Ok(count) = answer {
        for i in 0..count {
            *log = log.and(&at, &Told::Put(bytes[i]));
        }
    }
    answer
}
