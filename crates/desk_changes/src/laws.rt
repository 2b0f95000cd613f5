// What holds of the entries of changes, whatever they are of.
ghost use Rattle.std.specs.Prelude.{◌≡◌, List, map};
ghost use Rattle.tune_store.specs.State.{State, IsState, empty_of};
ghost use Rattle.tune_changes.specs.Aims.{turn_of};
ghost use Rattle.tune_changes.specs.ChangedStates.{AreAlike};
ghost use Rattle.tune_changes.specs.CommandRuns.{LeadsAccepted};
ghost use Rattle.tune_changes.specs.Undoing.{CanGoBack, StandsAfter, taken_back};
ghost use Rattle.tune_changes.specs.declared.turns.Turn.{Turn};
ghost use Rattle.tune_undo.specs.declared.old_entries.EntryKind.{EntryKind};
ghost use Rattle.desk_changes.specs.BackLaws.{LeadsBack, entry_back, loaded_back};

use tune_changes::law_of_undo;

/// The law of entries. It speaks of the entry that is kept before turns are brought about.
///
/// - `same`: the commands by which the entry is taken back are those of the law of undo
///   (`law_of_undo`) for its turns, from whatever state.
/// - `back`: so from a state that the turns led to, or that is alike but for the revisions of
///   tunes, they lead to the state of before, but for revisions, and none of them is refused.
/// - `loads`: the entry of a load is taken back from the state that the load made, or from one that
///   is alike but for the revisions of tunes: that leads to the empty archive, and no command is
///   refused.
pub fn law_of_entries()
    ensures same { (kind : EntryKind) (turns : List Turn) (state : State)
        → entry_back kind turns state ≡ taken_back (map turn_of turns) state }
    ensures back { (kind : EntryKind) (turns : List Turn) (old now : State)
        → IsState old → CanGoBack (map turn_of turns) now
        → StandsAfter (map turn_of turns) old now
        → LeadsBack (entry_back kind turns now) now old }
    ensures loads { (state now : State) → IsState now → AreAlike now state
        → LeadsAccepted now (loaded_back state now) (empty_of now.layout) }
{
    law_of_undo();
}
