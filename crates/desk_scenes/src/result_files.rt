// A result, written to a file.
ghost use Rattle.tune_desk.specs.Results.{places_for};
ghost use Rattle.desk_scenes.specs.Scenes.{WritesResult};

use crate::reasons::{DONE, say_unwritten};
use std::io::Write;
use tune_desk::{Desk, Destination, write_result};

/// Writes a result to a file, and gives the status.
pub fn write_file<E: Write, K: AllocGlobal + Desk>(
    desk: &mut K,
    to: &Destination,
    bytes: &[u8],
    errors: &mut E,
) -> u8
    ensures { WritesResult (places_for to.now) bytes.now
        (K.deeds desk.old) (K.deeds desk.new) result }
{
    match write_result(desk.alloc(), desk, to, bytes) {
        Ok(()) => DONE,
        Err(fault) => say_unwritten(errors, to.file.as_str(), to.out.as_str(), &fault),
    }
}
