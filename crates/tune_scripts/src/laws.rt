// What holds of commands over a store, one after another.
ghost use Rattle.std.specs.Prelude.{◌≡◌, List, false};
ghost use Rattle.tune_scripts.specs.Carried.{Carried, CarriesAllOut, LeftByRun, run_of};
ghost use Rattle.tune_scripts.specs.Prefixes.{FailsLast};

use tune_store::TuneStore;

/// The law of prefixes: of whoever calls a store, command after command, whether from a script or
/// not. Where the store was open, and its device has answered as a device does, a stop (a crash or
/// power loss) leaves the state after a prefix of the commands, which holds each that was answered
/// by then (`LeftByRun`).
///
/// After a command in which the device failed the store is closed, and left as it is; so the list
/// ends there.
pub fn law_of_prefixes<S: TuneStore>()
    ensures left { (old : S) (carried : List (Carried S)) (new : S)
        → CarriesAllOut S.TuneStore old carried new → FailsLast (run_of carried)
        → S.honest new → S.sound old → S.closed old ≡ false
        → LeftByRun S.TuneStore old carried new }
{}
