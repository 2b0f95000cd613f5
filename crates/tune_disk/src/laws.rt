// What stops may leave, in the subject's own words.
ghost use Rattle.std.specs.Prelude.{◌≡◌, ◌<◌, ◌≤◌, ℕ, List, length, slice_index};
ghost use Rattle.tune_disk.specs.Disk.{Medium, DiskState, MayLeave, GoesTo, Untouched, settled};
ghost use Rattle.tune_disk.specs.Disk.{touched};
ghost use Rattle.tune_disk.specs.Stops.{LeavesOnly, IsWithinRange};

use crate::Disk;

/// The laws of stops (a crash or power loss), of every disk. Nothing calls it: its clauses are what
/// it is for.
pub fn law_of_stops<D: Disk>(disk: &D)
    // The present content is itself one that a stop may leave.
    ensures present { D.honest disk.now → MayLeave (D.state disk.now).now (D.state disk.now).seen }
    // After a sync that answered Ok a stop leaves the present content alone.
    ensures synced { (old new : DiskState) → new.seen ≡ old.seen → GoesTo (settled old.seen) old new
        → LeavesOnly new.now (λ file. file ≡ new.seen) }
    // A stop within a write, when any part of its range was written, leaves nothing that a stop
    // after that write could not leave; nor does one before it.
    ensures within_write { (m : Medium) (at n part_at part : ℕ) → IsWithinRange part_at part at n
        → LeavesOnly (touched part_at part m) (MayLeave (touched at n m)) }
    ensures before_write { (m : Medium) (at n : ℕ) → LeavesOnly m (MayLeave (touched at n m)) }
    // What a stop may leave agrees with the stable content at each byte that no write since has
    // touched, and is no shorter.
    ensures untouched { (m : Medium) (file : List ℕ) → MayLeave m file
        → (i : ℕ) → i < length m.stable → Untouched m.written i
        → slice_index file i ≡ slice_index m.stable i }
    ensures no_shorter { (m : Medium) → LeavesOnly m (λ file. length m.stable ≤ length file) }
{
    // For the proof.
    let _ = disk;
}
