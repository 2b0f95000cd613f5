// What holds of dumps.
ghost use Rattle.tune_store.specs.State.{State, IsState, empty_of};
ghost use Rattle.tune_store.specs.declared.layout.Layout.TheVariants.{Two};
ghost use Rattle.desk_questions.specs.Dumps.{LeadsUnrefused, dump_commands, made_anew};

/// The law of dumps: of a state within the limits, the commands of its dump, one after another from
/// an empty archive of layout 2, are accepted, each of them, and make its tunes, with their numbers
/// and texts, and its set lists. Revisions are 1 there, as after each import.
pub fn law_of_dumps()
    ensures { (state : State) → IsState state
        → LeadsUnrefused (empty_of Two) (dump_commands state) (made_anew state) }
{}
