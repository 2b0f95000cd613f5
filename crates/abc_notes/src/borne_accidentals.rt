// The accidental of a note, by what its bar bears so far.
ghost use Rattle.std.specs.Prelude.{◌≡◌, ◌∷◌, List};
ghost use Rattle.abc_notes.specs.Events.{Event as AnyEvent};
ghost use Rattle.abc_notes.specs.Inside.EventView.{event_of, written_note};
ghost use Rattle.abc_notes.specs.Inside.KeptBar.{past_of};
ghost use Rattle.abc_notes.specs.Pitches.{borne, is_at, accidental_of_note};
ghost use Rattle.abc_notes.specs.Inside.BarTables.{IsBarAfter, IsNearOctave};

use crate::bar::{Bar, entry, is_near, letter_number};
use crate::events::{Event, WrittenNote};
use crate::tune_events::TuneEvents;
use abc_keys::Accidental;

// The accidental of the note that comes next: its own; else what the bar bears at its letter and
// octave; else that of the signature.
#[inline(always)]
pub(crate) fn accidental_in_force(
    bar: &mut Bar,
    bar_events: &TuneEvents,
    note: WrittenNote,
) -> Accidental
    requires { IsBarAfter (past_of bar.old.since bar_events.now) bar.old }
    ensures value { result
        ≡ accidental_of_note bar.old.start (past_of bar.old.since bar_events.now)
        (written_note note.entry) }
    ensures same { bar.new ≡ bar.old }
{
    if let Some(own) = note.own {
        return own;
    }
    match borne_at(bar, bar_events, note) {
        Some(accidental) => accidental,
        None => bar.signature.at(note.letter),
    }
}

// What the bar bears so far at a note's letter and octave.
#[inline(always)]
fn borne_at(bar: &Bar, bar_events: &TuneEvents, note: WrittenNote) -> Option<Accidental>
    requires { IsBarAfter (past_of bar.now.since bar_events.now) bar.now }
    ensures { result
        ≡ borne (past_of bar.now.since bar_events.now) note.entry.letter note.entry.octave }
{
    if !is_near(note) {
        return borne_far(bar, bar_events, note);
    }
    // Most bars have no accidentals of their own.
    if bar.has_near {
        entry(&bar.entries, note)
    } else {
        None
    }
}

// The same for an octave that has no entries.
#[inline(never)]
fn borne_far(bar: &Bar, bar_events: &TuneEvents, note: WrittenNote) -> Option<Accidental>
    requires kept { IsBarAfter (past_of bar.now.since bar_events.now) bar.now }
    requires far { IsNearOctave note.octave → ⊥ }
    ensures { result
        ≡ borne (past_of bar.now.since bar_events.now) note.entry.letter note.entry.octave }
{
    if bar.has_far {
        recall(bar_events.again(), bar.since, note)
    } else {
        None
    }
}

// Reads the first so many events of a bar again, for a letter and octave that have no entry.
fn recall(bar_events: TuneEvents, since: usize, note: WrittenNote) -> Option<Accidental>
    ensures { result ≡ borne (past_of since bar_events.entry) note.entry.letter note.entry.octave }
{
    let mut events = bar_events;
    let mut found = None;
    for turn in 0..since {
        let Some(event) = events.next() else {
            return found;
        };
        found = recalled(found, event, note);
    }
    found
}

// What is borne after one more event.
#[tactic(auto, unfolding(crate::specs::Pitches::borne))]
fn recalled(found: Option<Accidental>, event: Event, note: WrittenNote) -> Option<Accidental>
    ensures { (past : List AnyEvent) → found ≡ borne past note.entry.letter note.entry.octave
        → result ≡ borne (event_of event.entry ∷ past) note.entry.letter note.entry.octave }
{
    match event {
        Event::Note(earlier) => {
            if is_same_note(earlier, note) && earlier.own.is_some() {
                earlier.own
            } else {
                found
            }
        }
        Event::Bar => None,
        Event::Change(_) => found,
    }
}

fn is_same_note(earlier: WrittenNote, note: WrittenNote) -> bool
    ensures { result ≡ is_at (written_note earlier.entry) note.entry.letter note.entry.octave }
{
    letter_number(earlier.letter) == letter_number(note.letter) && earlier.octave == note.octave
}
