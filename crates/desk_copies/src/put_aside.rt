// An archive that is put aside, while it is held.
ghost use Rattle.std.specs.Prelude.{List, ℕ, MatchResult, string_bytes};
ghost use Rattle.tune_desk.specs.DeskDeeds.{DeskDeed};
ghost use Rattle.desk_copies.specs.Inside.HeldFiles.{HoldsArchive, HasPutAside};

use tune_desk::{Desk, DeskFault};

/// How many archives are put aside at most.
const MOST: u32 = 999_999;

/// Gives what stands at TARGET the first name TARGET.N.old that is free, and tells N.
pub(crate) fn put_aside<K: AllocGlobal + Desk>(
    desk: &mut K,
    target: &String,
) -> Result<u32, DeskFault>
    ensures { (file : List ℕ) (was : List (DeskDeed K.Disk))
        → HoldsArchive file (string_bytes target.now) was (K.deeds desk.old)
        → MatchResult result
        (λ number. HasPutAside file (string_bytes target.now) number was (K.deeds desk.new))
        (λ _. HoldsArchive file (string_bytes target.now) was (K.deeds desk.new)) }
{
    for number in 1..=MOST {
        match put_aside_as(desk, target, number) {
            Err(DeskFault::Taken) => {}
            Err(fault) => return Err(fault),
            Ok(()) => return Ok(number),
        }
    }
    Err(DeskFault::Taken)
}

fn put_aside_as<K: AllocGlobal + Desk>(
    desk: &mut K,
    target: &String,
    number: u32,
) -> Result<(), DeskFault>
    ensures { (file : List ℕ) (was : List (DeskDeed K.Disk))
        → HoldsArchive file (string_bytes target.now) was (K.deeds desk.old)
        → MatchResult result
        (λ _. HasPutAside file (string_bytes target.now) number was (K.deeds desk.new))
        (λ _. HoldsArchive file (string_bytes target.now) was (K.deeds desk.new)) }
{
    let Ok(aside) = format!(in desk.alloc(); "{target}.{number}.old") else {
        return Err(DeskFault::OutOfMemory);
    };
    desk.link(target, &aside)
}
