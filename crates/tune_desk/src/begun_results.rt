// A result that is begun as a disk, and named once it is whole.
ghost use Rattle.std.specs.Prelude.{◌≡◌, List, Option, Some, ℕ, IfOk, IfErr, string_bytes};
ghost use Rattle.tune_desk.specs.BegunResults.{IsBegun, NamesNew};
ghost use Rattle.tune_desk.specs.Inside.Begins.{BeginsAt};
ghost use Rattle.tune_desk.specs.Inside.Puts.{refusal_of_making};
ghost use Rattle.tune_desk.specs.Refusals.{Refuses};
ghost use Rattle.tune_desk.specs.Results.{SparesFiles, result_places, new_of};

use crate::putting::name_new;
use crate::result_checks::may_be_written;
use crate::{Desk, DeskFault, ResultFault, ResultRefusal};
use std::alloc::Global;
use tune_disk::Disk;

/// A result that was begun: TARGET.new stands, without a byte, and is open to change.
#[derive(Drop)]
pub struct BegunResult<D: Disk> {
    /// Where it goes.
    pub place: ResultPlace,
    /// The new file.
    pub disk: D,
}

/// Where a result goes that was begun.
#[derive(Drop)]
pub struct ResultPlace {
    /// TARGET: the path to which OUT leads.
    pub target: String,
    /// TARGET.new.
    pub new: String,
    /// Whether a file stands at TARGET, which it is named over.
    pub over: bool,
}

/// Begins a result that goes to OUT: makes TARGET.new, as a disk. FILE is the archive of the order;
/// it need not be there. What `write_result` refuses is refused.
pub fn begin_result<D: Disk, K: Desk<Disk = D>>(
    alloc: Global,
    desk: &mut K,
    file: &String,
    out: &String,
    force: bool,
) -> Result<BegunResult<D>, ResultFault>
    ensures begun { let out_path = Some (string_bytes out.now) in
        let places = result_places (string_bytes file.now) out_path force in
        IfOk result (λ begun. IsBegun places (string_bytes begun.place.target) begun.place.over
        (K.deeds desk.old) (K.deeds desk.new)) }
    ensures new { IfOk result (λ begun. string_bytes begun.place.new
        ≡ new_of (string_bytes begun.place.target)) }
    ensures is_new { IfOk result (λ begun. K.is_new begun.disk) }
    ensures files { let out_path = Some (string_bytes out.now) in
        let places = result_places (string_bytes file.now) out_path force in
        SparesFiles places (K.deeds desk.old) (K.deeds desk.new) }
    ensures refused { let out_path = Some (string_bytes out.now) in
        let places = result_places (string_bytes file.now) out_path force in
        IfErr result (λ fault. Refuses places fault (K.deeds desk.old) (K.deeds desk.new)) }
{
    let target = match desk.follow(alloc, out) {
        Ok(target) => target,
        Err(fault) => {
            return Err(ResultFault {
                target: None,
                why: ResultRefusal::Unasked(fault),
            });
        }
    };
    match begin_at(alloc, desk, file, &target, force) {
        Ok(NewDisk { new, over, disk }) => Ok(BegunResult {
            place: ResultPlace { target, new, over },
            disk,
        }),
        Err(why) => Err(ResultFault {
            target: Some(target),
            why,
        }),
    }
}

// TARGET.new, as a disk, and whether it is to be named over what stands at TARGET.
#[derive(Drop)]
pub(crate) struct NewDisk<D: Disk> {
    pub(crate) new: String,
    pub(crate) over: bool,
    pub(crate) disk: D,
}

// Begins a result at TARGET.
fn begin_at<D: Disk, K: Desk<Disk = D>>(
    alloc: Global,
    desk: &mut K,
    file: &String,
    target: &String,
    force: bool,
) -> Result<NewDisk<D>, ResultRefusal>
    ensures begins { (out : Option (List ℕ)) → let target = string_bytes target.now in
        let places = result_places (string_bytes file.now) out force in
        BeginsAt places target result (K.deeds desk.old) (K.deeds desk.new) }
    ensures is_new { IfOk result (λ begun. K.is_new begun.disk) }
{
    let over = may_be_written(alloc, desk, file, target, force)?;
    let Ok(new) = format!(in alloc; "{target}.new") else {
        return Err(ResultRefusal::OutOfMemory);
    };
    match desk.create(&new) {
        Ok(disk) => Ok(NewDisk { new, over, disk }),
        Err(fault) => Err(refusal_of(fault)),
    }
}

// Why a new file is not made.
fn refusal_of(fault: DeskFault) -> ResultRefusal
    ensures { result ≡ refusal_of_making fault }
{
    match fault {
        DeskFault::Taken => ResultRefusal::NewStands,
        fault => ResultRefusal::NotMade(fault),
    }
}

/// Names TARGET.new TARGET, and syncs its folder; or takes it away.
pub fn finish_result<K: Desk>(desk: &mut K, place: &ResultPlace) -> Result<(), ResultRefusal>
    requires { string_bytes place.now.new ≡ new_of (string_bytes place.now.target) }
    ensures { NamesNew (string_bytes place.now.target) place.now.over result
        (K.deeds desk.old) (K.deeds desk.new) }
{
    name_new(desk, &place.new, &place.target, place.over)
}
