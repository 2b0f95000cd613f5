// What holds of commands on a plain list of tunes and set lists, over whole runs of them.
ghost use Rattle.std.specs.Prelude.{◌≡◌, ℕ, List, true, IsTrue, IsFalse, Err, IsOk};
ghost use Rattle.tune_sets.specs.Calls.{places_of};
ghost use Rattle.tune_sets.specs.Laws.{HoldsNumber, IsLeastHolder};
ghost use Rattle.tune_store.specs.State.{State, IsState, Standing};
ghost use Rattle.tune_store.specs.Step.{step};
ghost use Rattle.tune_store.specs.Answers.{changes_nothing};
ghost use Rattle.tune_store.specs.Runs.{Answered};
ghost use Rattle.tune_store.specs.Revisions.{accepts, AcceptedReplaceRaises, OthersKeepRevision};
ghost use Rattle.tune_store.specs.Revisions.{RevisionCounts, AcceptedReplaceIsCurrent};
ghost use Rattle.tune_store.specs.Places.{AreTunesOf, OthersKeepPlaces};
ghost use Rattle.tune_store.specs.declared.tune.Tune.{Tune};
ghost use Rattle.tune_store.specs.declared.command.Command.{Command};
ghost use Rattle.tune_store.specs.declared.command.Command.TheVariants.{Delete, Renumber};
ghost use Rattle.tune_store.specs.declared.command.Command.TheVariants.{ExportSet};
ghost use Rattle.tune_store.specs.declared.command.Refusal.TheVariants.{InSet};

/// The law of revisions. It speaks of a plain list of tunes, which is what every store stands for
/// (`TuneStore::state`), and of every run of commands and their answers (`Runs`): the answer to
/// any of them may be out of memory, and at the end stores may fail and be closed. A tune is
/// followed by its number, and by its new one after an accepted `Renumber` of it.
///
/// - `replaced`: an accepted `Replace` names the current revision of its tune, and raises it by
///   one.
/// - `others`: no other command changes the revision of a tune that is there before and after it.
/// - `counted`: so, while a tune stays (no `Delete` of it is accepted), its revision rises by one
///   with each accepted `Replace` of it, and by nothing else.
/// - `current`: so, while a tune stays, a `Replace` that names the revision that the tune had
///   before a run is accepted after it only if no accepted `Replace` of the tune is in the run. No
///   two accepted ones name the same revision.
/// - `limits`: every command leaves a list that is within the limits (`IsState`) within them.
/// - `refused`: a command that is not accepted leaves the list as it was.
pub fn law_of_revisions()
    ensures replaced { (state : State) (number revision : ℕ) (book : List ℕ)
        → AcceptedReplaceRaises state number revision book }
    ensures others { (state : State) (number : ℕ) (command : Command)
        → IsState state → OthersKeepRevision state number command }
    ensures counted { (old : Standing) (run : List Answered) (new : Standing)
        (number revision : ℕ) → RevisionCounts old run new number revision }
    ensures current { (old : Standing) (run : List Answered) (mid : Standing)
        (number revision : ℕ) → AcceptedReplaceIsCurrent old run mid number revision }
    ensures limits { (state : State) (command : Command)
        → IsState state → IsState (step state command).0 }
    ensures refused { (state : State) (command : Command)
        → IsFalse (accepts state command) → (step state command).0 ≡ state }
{}

/// The law of places: what set lists name. It speaks of a plain list of tunes and set lists, which
/// is what every store stands for (`TuneStore::state`).
///
/// - `tunes`: in a state within the limits each place of each set list has its tune. Those tunes,
///   one for each place, are what `SetShow` and `ExportSet` answer by.
/// - `others`: only a command that names a set list changes its places, but that an accepted
///   `Renumber` gives the tune at a place its new number there.
/// - `exports`: so a `Renumber`, accepted or not, changes no export of a set list.
/// - `held`: a `Delete` that is refused by the name of a set list names the least of those that
///   hold the tune; `free`: where a `Delete` is accepted, no set list holds the tune.
pub fn law_of_places()
    ensures tunes { (state : State) (name : List ℕ) → IsState state
        → IsOk (places_of name state.sets) → (its : List Tune) × AreTunesOf name its state }
    ensures others { (state : State) (name : List ℕ) (command : Command)
        → OthersKeepPlaces state name command }
    ensures exports { (state : State) (number to : ℕ) (name : List ℕ) → IsState state
        → (step (step state (Renumber number to)).0 (ExportSet name)).1
        ≡ (step state (ExportSet name)).1 }
    ensures held { (state : State) (number : ℕ) (name : List ℕ) → IsState state
        → (step state (Delete number)).1 ≡ Err (InSet name)
        → IsLeastHolder number name state.sets }
    ensures free { (state : State) (number : ℕ) (name : List ℕ)
        → IsTrue (accepts state (Delete number)) → ¬ HoldsNumber number name state.sets }
{}

/// The law of changes: which accepted commands leave a plain list of tunes and set lists as it is.
///
/// - `kept`: questions do, a `Renumber` to the tune's own number, and an `Upgrade` of layout 2.
/// - `changed`: no other does.
pub fn law_of_changes()
    ensures kept { (state : State) (command : Command)
        → changes_nothing state.layout command ≡ true → (step state command).0 ≡ state }
    ensures changed { (state : State) (command : Command) → IsTrue (accepts state command)
        → (step state command).0 ≡ state → changes_nothing state.layout command ≡ true }
{}
