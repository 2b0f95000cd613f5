// Calls that any disk takes.
use crate::bytes::show_word;
use test_cases::Answer;
use tune_disk::Disk;

/// No call of the data goes further.
const FARTHEST: u64 = 1 << 39;

/// A call that any disk takes: what is read comes into the bytes beside it, and what is written
/// stands there.
#[derive(Clone, Copy)]
pub(crate) enum DiskCall {
    Len,
    Read(u64),
    Write(u64),
    Sync,
}

/// Makes a call of a disk, and answers it.
pub(crate) fn call_disk<D: Disk>(
    disk: &mut D,
    call: DiskCall,
    bytes: &mut [u8],
    answer: &mut Answer,
) {
    match call {
        DiskCall::Len => match disk.len() {
            Ok(length) => answer.show(length),
            Err(_) => answer.say("fault"),
        },
        DiskCall::Read(at) => read(disk, at, bytes, answer),
        DiskCall::Write(at) => write(disk, at, bytes, answer),
        DiskCall::Sync => say_whether_done(disk.sync().is_ok(), answer),
    }
}

fn read<D: Disk>(disk: &mut D, at: u64, into: &mut [u8], answer: &mut Answer) {
    if at > FARTHEST || into.len() as u64 > FARTHEST {
        answer.say("too far");
    } else if disk.read(at, into).is_ok() {
        show_word(into, answer);
    } else {
        answer.say("fault");
    }
}

fn write<D: Disk>(disk: &mut D, at: u64, bytes: &[u8], answer: &mut Answer) {
    if at > FARTHEST || bytes.len() as u64 > FARTHEST {
        answer.say("too far");
    } else {
        say_whether_done(disk.write_at(at, bytes).is_ok(), answer);
    }
}

/// Answers whether a call was done.
pub(crate) fn say_whether_done(is_done: bool, answer: &mut Answer) {
    answer.say(if is_done { "ok" } else { "fault" });
}
