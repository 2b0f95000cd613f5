// A result is put in its place: made beside it, and then named.
ghost use Rattle.std.specs.Prelude.{◌≡◌, string_bytes};
ghost use Rattle.tune_desk.specs.BegunResults.{NamesNew, TakesAway};
ghost use Rattle.tune_desk.specs.Inside.Puts.{PutsIt};
ghost use Rattle.tune_desk.specs.Results.{new_of};

use crate::{Desk, DeskFault, ResultRefusal};

// Makes TARGET.new of these bytes, and names it TARGET: over what stands there, or where nothing
// does.
pub(crate) fn put<K: Desk>(
    desk: &mut K,
    new: &String,
    target: &String,
    over: bool,
    bytes: &[u8],
) -> Result<(), ResultRefusal>
    requires { string_bytes new.now ≡ new_of (string_bytes target.now) }
    ensures { PutsIt (record { target = string_bytes target.now; over = over; bytes = bytes.now })
        result (K.deeds desk.old) (K.deeds desk.new) }
{
    match desk.make(new, bytes) {
        Ok(()) => name_new(desk, new, target, over),
        Err(DeskFault::Taken) => Err(ResultRefusal::NewStands),
        Err(fault) => Err(ResultRefusal::NotMade(fault)),
    }
}

// Names TARGET.new, or else takes it away.
pub(crate) fn name_new<K: Desk>(
    desk: &mut K,
    new: &String,
    target: &String,
    over: bool,
) -> Result<(), ResultRefusal>
    requires { string_bytes new.now ≡ new_of (string_bytes target.now) }
    ensures { NamesNew (string_bytes target.now) over result
        (K.deeds desk.old) (K.deeds desk.new) }
{
    let named = if over {
        desk.name_over(new, target)
    } else {
        desk.name(new, target)
    };
    match named {
        Ok(()) => Ok(()),
        Err(DeskFault::Unkept) => Err(ResultRefusal::Unkept),
        Err(fault) => take_away(desk, new, fault),
    }
}

// Takes TARGET.new away, which could not be named.
fn take_away<K: Desk>(desk: &mut K, new: &String, fault: DeskFault) -> Result<(), ResultRefusal>
    ensures { TakesAway (string_bytes new.now) fault result (K.deeds desk.old) (K.deeds desk.new) }
{
    match desk.remove(new) {
        Ok(()) => Err(ResultRefusal::NotNamed(fault)),
        Err(left) => Err(ResultRefusal::Left(left)),
    }
}
