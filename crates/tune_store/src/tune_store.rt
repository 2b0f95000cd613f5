// What every store of tunes promises.
ghost use Rattle.std.specs.Prelude.{◌≡◌, ◌≢◌, ◌↔◌, ◌≤◌, ℕ, List, true, false, not, ⊤};
ghost use Rattle.std.specs.Prelude.{Bool, IfOk, IfErr, IsErrOf};
ghost use Rattle.tune_store.specs.State.{State, IsState, standing_by};
ghost use Rattle.tune_store.specs.Step.{step};
ghost use Rattle.tune_store.specs.Answers.{Answers, IsRefusalOf, passed, stays_open, may_write};
ghost use Rattle.tune_store.specs.Revisions.{RaisesReplaced};
ghost use Rattle.tune_store.specs.StoreStops.{Passes, HasFailed, tellings};

use crate::command::{Command, Refusal, Reply};

/// A store of tunes: a plain list of them in meaning, in memory or on a device that may fail, or
/// stop in mid-write.
///
/// What is said of the tunes, of what is written, and of what a stop leaves, holds where the device
/// has answered as a device does (`honest`). What is said of closing, and of the refusals `Device`
/// and `Closed`, holds of every device.
pub trait TuneStore {
    /// The list that the store stands for.
    ghost state: { Self → State };

    /// Whether the store is closed: an earlier call was answered that the device failed.
    ghost closed: { Self → Bool } = { λ _. false };

    /// Its device has answered as a device does, in every call so far.
    ghost honest: { Self → Type 0 } = { λ _. ⊤ };

    /// What the store relies on in itself: where its device is honest its state is within the
    /// limits, and where it is open too, each file that a stop leaves now stands for its state.
    ghost sound: { Self → Type 0 };

    /// How often its device failed.
    ghost failures: { Self → ℕ } = { λ _. 0 };

    /// How far its device has come: a number that no call of an honest one lowers. A store over a
    /// device gives one that each write and each sync raises, unless it failed and did nothing.
    ghost moment: { Self → ℕ } = { λ _. 0 };

    /// Whether a stop at that moment may have left this file.
    ghost left_at: { Self → ℕ → List ℕ → Type 0 } = { λ _ _ _. ⊥ };

    /// Whether a stop at that moment, or since then, may have left this file.
    ghost left_since: { Self → ℕ → List ℕ → Type 0 } = { λ _ _ _. ⊥ };

    /// Whether a file stands for a state.
    ghost stands_for: { List ℕ → State → Type 0 } = { λ _ _. ⊥ };

    /// Carries out a command, or refuses it. The refusals are those of the command, `OutOfMemory`,
    /// `Device` where the device failed, and `Closed` where it failed before. After each but
    /// `Device` the store is as it was. After `Device` it is closed, and makes no device call any
    /// more.
    ///
    /// A question leaves the device at the moment at which it was, whatever it is answered, and so
    /// does a command that is refused, but for `Device`: nothing is written (`quiet`). Nor is
    /// anything written for a command that changes nothing, though it is accepted, as a `Renumber`
    /// of a tune to its own number (`unchanged`).
    fn apply(&mut self, command: &Command) -> Result<Reply, Refusal>
        ensures answer { honest self.new → Answers (standing_by state closed self.old) command.now
            result (standing_by state closed self.new) }
        ensures refused { IfErr result (λ refusal.
            refusal ≢ Refusal.Device → honest self.new → state self.new ≡ state self.old) }
        ensures names { IfErr result (IsRefusalOf command.now) }
        ensures replaced { IfOk result (λ _.
            honest self.new → RaisesReplaced command.now (state self.old) (state self.new)) }
        ensures closes { closed self.new ≡ not (stays_open result) }
        ensures when_closed { IsErrOf result Refusal.Closed ↔ (closed self.old ≡ true) }
        ensures idle { closed self.old ≡ true → self.new ≡ self.old }
        ensures stops { Passes
            (tellings honest sound state moment
            (record { at = left_at; since = left_since }) stands_for)
            self.old self.new (passed (state self.old) command.now result) }
        ensures cause { honest self.new → IsErrOf result Refusal.Device
            → HasFailed (failures self.old) (failures self.new) }
        ensures quiet { may_write command.now result ≡ false → honest self.new
            → moment self.new ≡ moment self.old }
        ensures unchanged { (step (state self.old) command.now).0 ≡ state self.old
            → honest self.new → moment self.new ≡ moment self.old };

    /// Where the store is open, a stop now leaves its state.
    ghost settled: { (store : Self) (file : List ℕ) → sound store → honest store
        → closed store ≡ false → left_since store (moment store) file
        → stands_for file (state store) };

    /// What the store stands for is within the limits.
    ghost within: { (store : Self) → sound store → honest store → IsState (state store) };

    /// What a stop may have left at a moment, it may have left since each one before it, and since
    /// that one.
    ghost since_at: { (store : Self) (at since : ℕ) (file : List ℕ) → since ≤ at
        → left_at store at file → left_since store since file };

    /// What a stop may have left since a moment, it may have left since an earlier one: nothing
    /// that a stop leaves later, after a fault too, is let go.
    ghost since_earlier: { (store : Self) (since earlier : ℕ) (file : List ℕ) → earlier ≤ since
        → left_since store since file → left_since store earlier file };
}
