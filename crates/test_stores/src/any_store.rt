// What a caller knows of a store by its trait alone.
ghost use Rattle.std.specs.Prelude.{◌≡◌, ◌≤◌, List, [], ◌∷◌, false, ℕ, IsErrOf};
ghost use Rattle.tune_store.specs.Answers.{Answers, passed};
ghost use Rattle.tune_store.specs.Step.{step};
ghost use Rattle.tune_store.specs.StoreStops.{StandsForOne};
ghost use Rattle.tune_store.specs.Stores.{standing_of};

use tune_store::{Command, Refusal, Reply, TuneStore};

/// Carries out a command on an open store. A stop from just before the command on leaves the state
/// before it, or one that it went on to.
pub fn apply_to_open<S: TuneStore>(store: &mut S, command: &Command) -> Result<Reply, Refusal>
    requires is_open { S.closed store.old ≡ false }
    requires sound { S.sound store.old }
    ensures answer { S.honest store.new → Answers (standing_of S.TuneStore store.old) command.now
        result (standing_of S.TuneStore store.new) }
    ensures sound { S.sound store.new }
    ensures left { let state = S.state store.old in
        S.honest store.new → (file : List ℕ) → S.left_since store.new (S.moment store.old) file
        → StandsForOne S.stands_for (state ∷ passed state command.now result) file }
{
    store.apply(command)
}

/// Carries out a command on an open store, and then another. Where the device failed in the first,
/// the second is answered that the store is closed, and a stop at any moment since just before the
/// first leaves the state before it or the state after it: nothing is let go.
pub fn apply_two<S: TuneStore>(
    store: &mut S,
    first: &Command,
    second: &Command,
) -> (Result<Reply, Refusal>, Result<Reply, Refusal>)
    requires is_open { S.closed store.old ≡ false }
    requires sound { S.sound store.old }
    ensures closed { IsErrOf result.0 Refusal.Device → IsErrOf result.1 Refusal.Closed }
    ensures left { let state = S.state store.old in
        S.honest store.new → IsErrOf result.0 Refusal.Device
        → (since : ℕ) (file : List ℕ) → S.moment store.old ≤ since
        → S.left_since store.new since file
        → StandsForOne S.stands_for (state ∷ (step state first.now).0 ∷ []) file }
{
    let answer = store.apply(first);
    let next = store.apply(second);
    (answer, next)
}
