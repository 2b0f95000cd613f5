// The steps between the first notes of tunes and of queries.
ghost use Rattle.std.specs.Prelude.{◌≡◌, ◌+◌, ◌-◌, ◌<◌, ◌≤◌, ◌↔◌, ◌++◌, List, ℕ, ℤ};
ghost use Rattle.std.specs.Prelude.{length, count_by, min, IsTrue, IfOk, IsErr, IsOk, option_map};
ghost use Rattle.std.specs.Prelude.{FitsSigned, Some, take};
ghost use Rattle.std.specs.Int.{w8};
ghost use Rattle.std.specs.List.{AllWithin};
ghost use Rattle.tune_incipit.specs.Incipits.{counting_pitches, differences, incipit_of};
ghost use Rattle.tune_incipit.specs.Incipits.{query_notes, raised, tune_notes};
ghost use Rattle.tune_incipit.specs.Inside.NextSteps.{steps_and, all_steps};
ghost use Rattle.tune_incipit.specs.Inside.StepRows.{most_steps};
ghost use Rattle.tune_incipit.specs.Limits.{fewest_notes, most_notes};
ghost use Rattle.abc_fields.specs.Limits.{longest_book};
ghost use Rattle.abc_notes.specs.Pitches.{SoundedNote};

use crate::note_pitches::Pitch;
use crate::some_steps::SomeSteps;
use crate::step_lists::Steps;
use abc_fields::TuneText;
use abc_keys::key_of;
use abc_notes::{NoteToken, Notes, OpeningNotes};
use thiserror::Error;

/// The fewest notes that an incipit may be asked by (this archive's profile).
pub const FEWEST_NOTES: usize = 2;

/// The most notes that an incipit may be asked by (this archive's profile).
pub const MOST_NOTES: usize = 12;

// Puts the step to one more note behind the others, where this is the pitch of the last one before
// it, and takes the note for the last one.
#[inline(always)]
fn add_note(steps: &mut Steps, last: &mut Option<Pitch>, token: NoteToken)
    requires { length steps.old < most_steps }
    ensures steps { steps.new
        ≡ steps_and steps.old (option_map (λ p. p.semitones) last.old) token.entry.pitch }
    ensures last { option_map (λ p. p.semitones) last.new ≡ Some token.entry.pitch }
{
    let pitch = Pitch::of(token);
    if let Some(before) = *last {
        steps.push(pitch.semitones - before.semitones);
    }
    *last = Some(pitch);
}

// The steps between the first of these notes that count.
fn first_steps(notes: Notes, count: usize) -> Steps
    requires few { fewest_notes ≤ count }
    requires many { count ≤ most_steps + 1 }
    ensures { result ≡ incipit_of count notes.entry }
{
    steps_with(notes, count, Steps::new(), None)
}

// The steps so far, and those on to the first of these notes that count, up to so many notes.
#[inline(never)]
fn steps_with(notes: Notes, count: usize, so_far: Steps, last_so_far: Option<Pitch>) -> Steps
    requires room { length so_far + 1 < count }
    requires many { count ≤ most_steps + 1 }
    ensures { result
        ≡ all_steps count (option_map (λ p. p.semitones) last_so_far) so_far notes.entry }
{
    let mut steps = so_far;
    let mut last = last_so_far;
    for token in notes.counting() {
        add_note(&mut steps, &mut last, token);
        if steps.len() + 1 == count {
            return steps;
        }
    }
    steps
}

// The steps between the first notes of a tune that count. Of most tunes they are plain, so that
// they are read with little work.
#[inline(always)]
fn opening_steps(text: &TuneText, count: usize) -> Steps
    requires few { fewest_notes ≤ count }
    requires many { count ≤ most_notes }
    ensures { result ≡ incipit_of count (tune_notes text.now) }
{
    let mut opening = OpeningNotes::of_tune(text);
    let mut pitches = [0; MOST_NOTES];
    let taken = opening.take_plain(&mut pitches, count);
    if taken == count {
        return Steps::between(&pitches, taken);
    }
    steps_with_rest(&opening, count, &pitches, taken)
}

// The same, of the pitches of so many notes and what is left of a tune after them. What is left is
// copied here alone, so that it need not lie in memory before.
#[inline(always)]
fn steps_with_rest(
    rest: &OpeningNotes,
    count: usize,
    pitches: &[i8; MOST_NOTES],
    taken: usize,
) -> Steps
    requires few { fewest_notes ≤ count }
    requires many { count ≤ most_notes }
    requires room { taken < count }
    requires fit { AllWithin (FitsSigned w8) pitches.now 0 taken }
    ensures { result
        ≡ differences (take count (take taken pitches.now ++ counting_pitches rest.now)) }
{
    steps_of_rest(rest.again(), count, pitches, taken)
}

// The same. It stands apart, so that the way of most tunes is short.
#[inline(never)]
fn steps_of_rest(
    rest: OpeningNotes,
    count: usize,
    pitches: &[i8; MOST_NOTES],
    taken: usize,
) -> Steps
    requires few { fewest_notes ≤ count }
    requires many { count ≤ most_notes }
    requires room { taken < count }
    requires fit { AllWithin (FitsSigned w8) pitches.now 0 taken }
    ensures { result
        ≡ differences (take count (take taken pitches.now ++ counting_pitches rest.entry)) }
{
    let last = if taken == 0 {
        None
    } else {
        Some(Pitch::of_small(pitches[taken - 1]))
    };
    steps_with(
        rest.into_notes(),
        count,
        Steps::between(pitches, taken),
        last,
    )
}

/// The incipit of a tune by its first `notes` notes that count, or by all of them where it has
/// fewer: one step less than notes, and none of no note.
#[inline(always)]
pub fn steps(text: &TuneText, notes: usize) -> Steps
    requires few { fewest_notes ≤ notes }
    requires many { notes ≤ most_notes }
    ensures steps { result ≡ incipit_of notes (tune_notes text.now) }
    ensures count { length result
        ≡ min notes (count_by (λ note. note.counts) (tune_notes text.now)) - 1 }
    // A tune that is played higher or lower has the same incipit.
    ensures at_each_height { (by : ℤ) (all : List SoundedNote)
        → incipit_of notes (raised by all) ≡ incipit_of notes all }
    // The incipit by fewer notes is a front of it.
    ensures fronts { (fewer : ℕ) (all : List SoundedNote) → fewer ≤ notes
        → (rest : List ℤ) × (incipit_of fewer all ++ rest ≡ incipit_of notes all) }
{
    opening_steps(text, notes)
}

/// Why a query is refused: it asks for nothing. Of notes it does where fewer than two count.
#[derive(Clone, Copy, Debug, PartialEq, Eq, Error)]
#[error("a query asks for a title, a rhythm, a scale or two notes at least")]
pub struct BadQuery;

/// The incipit of a query of notes, by its first `notes` notes that count. The query is read as one
/// music line in C, up to its comment, whatever it begins with (this archive's profile); it has at
/// most 4,000,000 bytes.
pub fn query_steps(query: &[u8], notes: usize) -> Result<SomeSteps, BadQuery>
    requires short { length query.now ≤ longest_book }
    requires few { fewest_notes ≤ notes }
    requires many { notes ≤ most_notes }
    ensures steps { IfOk result (λ front. front.steps
        ≡ incipit_of notes (query_notes query.now)) }
    ensures ok { IsOk result
        ↔ (fewest_notes ≤ count_by (λ note. note.counts) (query_notes query.now)) }
    ensures bad { IsErr result
        ↔ (count_by (λ note. note.counts) (query_notes query.now) < fewest_notes) }
{
    match SomeSteps::new(first_steps(query_notes(query), notes)) {
        Some(front) => Ok(front),
        None => Err(BadQuery),
    }
}

// The notes of a query.
fn query_notes(query: &[u8]) -> Notes<'_>
    requires { length query.now ≤ longest_book }
    ensures { result ≡ query_notes query.now }
{
    Notes::of_line(query, &key_of(b"C"))
}

/// Whether steps begin with others.
pub fn begins(front: &Steps, whole: &Steps) -> bool
    ensures { IsTrue result ↔ ((rest : List ℤ) × (front.now ++ rest ≡ whole.now)) }
{
    whole.as_slice().starts_with(front.as_slice())
}
