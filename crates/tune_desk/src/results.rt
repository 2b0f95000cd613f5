// The one rule by which a result is written to a file.
ghost use Rattle.std.specs.Prelude.{IfOk, IfErr, string_bytes};
ghost use Rattle.tune_desk.specs.Inside.Puts.{WritesTo};
ghost use Rattle.tune_desk.specs.Refusals.{Refuses};
ghost use Rattle.tune_desk.specs.Results.{SparesFiles, WritesTarget, places_for};

use crate::putting::put;
use crate::result_checks::may_be_written;
use crate::{Desk, Destination, ResultFault, ResultRefusal};
use std::alloc::Global;

/// Writes a result to OUT, whole or not at all: to TARGET.new, which is synced, and then named
/// TARGET, where TARGET is the path to which OUT leads. FILE is the archive of the order; it need
/// not be there.
///
/// TARGET is refused where it is FILE by any name, or where its name is kept for FILE; where it is
/// a folder, or no regular file; and where its folder is missing. A file that stands there is
/// written over only by `force`, and never where it begins as an archive. What stands at
/// TARGET.new already is left as it is.
pub fn write_result<K: Desk>(
    alloc: Global,
    desk: &mut K,
    to: &Destination,
    bytes: &[u8],
) -> Result<(), ResultFault>
    ensures files { SparesFiles (places_for to.now) (K.deeds desk.old) (K.deeds desk.new) }
    ensures written { IfOk result (λ _.
        WritesTarget (places_for to.now) bytes.now (K.deeds desk.old) (K.deeds desk.new)) }
    ensures refused { IfErr result (λ fault.
        Refuses (places_for to.now) fault (K.deeds desk.old) (K.deeds desk.new)) }
{
    let target = match desk.follow(alloc, to.out) {
        Ok(target) => target,
        Err(fault) => {
            return Err(ResultFault {
                target: None,
                why: ResultRefusal::Unasked(fault),
            });
        }
    };
    match write_to(alloc, desk, to, &target, bytes) {
        Ok(()) => Ok(()),
        Err(why) => Err(ResultFault {
            target: Some(target),
            why,
        }),
    }
}

// Writes a result to TARGET.
fn write_to<K: Desk>(
    alloc: Global,
    desk: &mut K,
    to: &Destination,
    target: &String,
    bytes: &[u8],
) -> Result<(), ResultRefusal>
    ensures { WritesTo (places_for to.now) (string_bytes target.now) bytes.now result
        (K.deeds desk.old) (K.deeds desk.new) }
{
    let over = may_be_written(alloc, desk, to.file, target, to.force)?;
    let Ok(new) = format!(in alloc; "{target}.new") else {
        return Err(ResultRefusal::OutOfMemory);
    };
    put(desk, &new, target, over, bytes)
}
