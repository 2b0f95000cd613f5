// What holds of turns that are brought about, and taken back.
ghost use Rattle.std.specs.Prelude.{◌≡◌, ◌≢◌, ℕ, List, ◌∷◌, ◌++◌, take, drop, Option};
ghost use Rattle.std.specs.List.{AllByRecursion};
ghost use Rattle.tune_store.specs.State.{State, IsState};
ghost use Rattle.tune_changes.specs.SubjectTurns.{Subject, Turn, Aim, content};
ghost use Rattle.tune_changes.specs.SubjectTurns.Subject.{SetOf};
ghost use Rattle.tune_changes.specs.CommandRuns.{after_commands, AreAccepted, LeadsAccepted};
ghost use Rattle.tune_changes.specs.Bringing.{brought, brought_each};
ghost use Rattle.tune_changes.specs.ChangedStates.{with_content, with_each, AreAlikeBut};
ghost use Rattle.tune_changes.specs.Undoing.{IsGiven, CanBe, BringsAbout, brought_about, TakesBack};
ghost use Rattle.tune_changes.specs.Undoing.{CanGoBack, StandsAfter, NotBegun, StandsWithin};

/// The law of bringing: in a state within the limits subjects are brought to what they are to be, a
/// tune to a text, a set list to numbers, or either out.
///
/// - `brings`: where that can be, the commands that bring it are accepted, each of them, and make
///   just that: the tune or the set list is this, and all else is as it was.
/// - `only`: they are accepted only where that can be.
/// - `each`: so commands that bring subjects, one after another, and are accepted, make just that.
/// - `its`, `others`: then the subject is what it was to be, and each other one is what it was.
/// - `resumed`: after a stop within the commands for a subject the rest of them lead there too.
/// - `stopped`: a stop within the commands for a set list leaves all but that set list as it was.
pub fn law_of_bringing()
    ensures brings { (state : State) (subject : Subject) (to : Option (List ℕ))
        → IsState state → CanBe subject to state
        → LeadsAccepted state (brought subject to state) (with_content subject to state) }
    ensures only { (state : State) (subject : Subject) (to : Option (List ℕ))
        → IsState state → IsGiven subject to → AreAccepted (brought subject to state) state
        → CanBe subject to state }
    ensures each { (aims : List Aim) (state : State)
        → IsState state → AllByRecursion (λ aim. IsGiven aim.subject aim.to) aims
        → AreAccepted (brought_each aims state) state
        → after_commands (brought_each aims state) state ≡ with_each aims state }
    ensures its { (state : State) (subject : Subject) (to : Option (List ℕ))
        → IsState state → content subject (with_content subject to state) ≡ to }
    ensures others { (state : State) (subject other : Subject) (to : Option (List ℕ))
        → subject ≢ other
        → content other (with_content subject to state) ≡ content other state }
    ensures resumed { (state : State) (subject : Subject) (to : Option (List ℕ)) (count : ℕ)
        → IsState state → CanBe subject to state
        → let commands = brought subject to state in
        LeadsAccepted (after_commands (take count commands) state) (drop count commands)
        (with_content subject to state) }
    ensures stopped { (state : State) (name : List ℕ) (to : Option (List ℕ)) (count : ℕ)
        → IsState state
        → let commands = take count (brought (SetOf name) to state) in
        AreAlikeBut (SetOf name) (after_commands commands state) state }
{}

/// The law of undo. It speaks of turns that were brought about from a state within the limits, one
/// after another: each was recorded from the state as it stood, and its commands were accepted. A
/// tune that is taken out leaves a number above all others, by which it can come back.
///
/// - `about`: all of their commands, in a row, lead to the state that they bring about.
/// - `back`: from there, or from any state that is alike but for the revisions of tunes, they are
///   taken back, the last turn first: that leads to the state of before, but for revisions, and no
///   command is refused. The state that they are taken back from is within the limits, and its
///   revisions leave room for the texts that are put back.
/// - `stopped`: so too where more turns were recorded behind them, but not begun, or were taken
///   back already.
/// - `within`: so too where the next turn is on a set list, and that is anything now, as after a
///   stop within the commands that bring it about or take it back.
pub fn law_of_undo()
    ensures about { (old new : State) (turns : List Turn)
        → IsState old → BringsAbout turns old new
        → LeadsAccepted old (brought_about turns old) new }
    ensures back { (old now : State) (turns : List Turn)
        → IsState old → CanGoBack turns now → StandsAfter turns old now
        → TakesBack turns now old }
    ensures stopped { (old now : State) (turns others : List Turn)
        → IsState old → CanGoBack turns now → StandsAfter turns old now
        → AllByRecursion (NotBegun now) others → TakesBack (turns ++ others) now old }
    ensures within { (old now : State) (turns others : List Turn) (turn : Turn)
        → IsState old → CanGoBack turns now → StandsWithin turns turn others old now
        → TakesBack (turns ++ turn ∷ others) now old }
{}
