// The notes of tunes and of music lines, with their pitches.
ghost use Rattle.std.specs.Prelude.{◌≡◌, ◌+◌, ◌≤◌, ◌∷◌, ◌++◌, [], List, length};
ghost use Rattle.std.specs.Iterator.{YieldsFirstBy, item_count};
ghost use Rattle.abc_fields.specs.Limits.{longest_book};
ghost use Rattle.abc_fields.specs.Lines.{spans_of as lines_of};
ghost use Rattle.abc_fields.specs.Values.{uncommented};
ghost use Rattle.abc_items.specs.Grammar.{ItemText, AreItems};
ghost use Rattle.abc_items.specs.ItemSpans.{item_spans_from};
ghost use Rattle.abc_keys.specs.Keys.{signature_of};
ghost use Rattle.abc_keys.specs.declared.signatures.Signature.{Signature as AnySignature};
ghost use Rattle.abc_notes.specs.Events.{Event as AnyEvent, WrittenNote as AnyNote};
ghost use Rattle.abc_notes.specs.Events.{bar as bar_line};
ghost use Rattle.abc_notes.specs.Inside.EventView.{event_of, notes_of_token, written_note};
ghost use Rattle.abc_notes.specs.Music.{line_events, music_events, tune_events, tune_signature};
ghost use Rattle.abc_notes.specs.Pitches.{SoundedNote, sounded, sounded_notes, counting};
ghost use Rattle.abc_notes.specs.Pitches.{FollowsTheRule};
ghost use Rattle.abc_notes.specs.Inside.KeptBar.{notes_left, asked_notes, IsKeptBar};
ghost use Rattle.abc_notes.specs.NoteParts.{AreNoteParts, NotesRise};
ghost use Rattle.abc_notes.specs.HeardLines.{AreGiven};
ghost use Rattle.abc_notes.specs.Inside.BarTables.{IsBarAfter};
ghost use Rattle.abc_notes.specs.Tokens.{token_note};

use crate::bar::Bar;
use crate::borne_accidentals::accidental_in_force;
use crate::events::{Event, WrittenNote};
use crate::key_signatures::KeySignature;
use crate::note_tokens::NoteToken;
use crate::pitches::pitch_of;
use crate::tune_events::TuneEvents;
use abc_fields::{TuneText, without_comment};
use abc_keys::{Accidental, Key, signature};
use std::marker::Model;

/// The notes of a tune or of a music line, in order, with their pitches (ABC 2.1, 4.1, 4.2 and
/// 4.17; this archive's profile). A clause sees the list of the notes that are left.
///
/// It takes no memory. Accidentals of sixteen octaves are kept in a table; beyond these the bar is
/// read again.
#[derive(Drop)]
pub struct Notes<'a> {
    events: TuneEvents<'a>,
    // The events from where the bar began, or a few short bars before it.
    bar_events: TuneEvents<'a>,
    bar: Bar<'a>,
}

impl<'a> Model for Notes<'a> {
    ghost Value = { List SoundedNote };

    ghost view = { λ notes. notes_left notes.bar notes.bar_events notes.events };

    ghost invariant = { λ notes. IsKeptBar notes.bar notes.bar_events notes.events };
}

impl<'a> Notes<'a> {
    /// The notes of a tune's body: of its music lines, up to the comment of each, those within
    /// `%%begin..` parts aside. `K:` lines and `[K:..]` fields change the signature.
    #[inline(always)]
    pub fn of_tune(text: &'a TuneText) -> Notes<'a>
        ensures notes { result ≡ sounded_notes (tune_signature text.now) [] (tune_events text.now) }
        ensures parts { AreNoteParts text.now result }
        ensures rise { NotesRise 0 result }
        ensures accidentals { (first : AnySignature) (past : List AnyEvent) (note : AnyNote)
            → FollowsTheRule first past note }
        // The lines after the key are heard that lie in no part, and nothing else is.
        ensures by_lines { AreGiven [] (lines_of text.now) (tune_events text.now) }
        ensures no_other_events { (events : List AnyEvent)
            → AreGiven [] (lines_of text.now) events → events ≡ tune_events text.now }
    {
        let (key, events) = TuneEvents::of_tune(text);
        Notes::new(KeySignature::of_text(key), events)
    }

    /// The notes of one music line, up to its comment, in a key. The line has at most 4,000,000
    /// bytes.
    pub fn of_line(line: &'a [u8], key: &Key) -> Notes<'a>
        requires { length line.now ≤ longest_book }
        ensures notes { result ≡ sounded_notes (signature_of key.now) [] (music_events 0 line.now) }
        ensures by_any_items { (items : List ItemText) → AreItems items (uncommented line.now)
            → result
            ≡ sounded_notes (signature_of key.now) [] (line_events 0 (item_spans_from 0 items)) }
        ensures parts { AreNoteParts line.now result }
        ensures rise { NotesRise 0 result }
    {
        Notes::new(
            KeySignature::known(signature(key)),
            TuneEvents::of_line(without_comment(line)),
        )
    }

    #[inline(always)]
    pub(crate) fn new(start: KeySignature<'a>, events: TuneEvents<'a>) -> Notes<'a>
        requires { length events ≤ longest_book }
        ensures { result ≡ sounded_notes start.entry [] events.entry }
    {
        Notes {
            bar_events: events.again(),
            events,
            bar: Bar::new(start),
        }
    }

    /// The notes that count alone. Of a note that does not count no pitch is read, so that a chord
    /// costs no more than its text.
    #[inline(always)]
    pub fn counting(self) -> CountingNotes<'a>
        ensures { result ≡ counting self.entry }
    {
        CountingNotes { notes: self }
    }

    // Takes the first note that is left; or, where not all are asked for, the first that counts.
    #[inline(always)]
    fn first_note(&mut self, all: bool) -> Option<NoteToken<'a>>
        ensures { YieldsFirstBy token_note (asked_notes all) self.old result self.new }
    {
        let note = plain_note(&mut self.bar, &mut self.bar_events, &mut self.events, all);
        if note.is_some() {
            return note;
        }
        self.searched_note(all)
    }

    // The same, where what comes next is not plain. It stands apart, so that the way of most notes
    // is short.
    #[inline(never)]
    fn searched_note(&mut self, all: bool) -> Option<NoteToken<'a>>
        ensures { YieldsFirstBy token_note (asked_notes all) self.old result self.new }
    {
        'events: loop {
            let Some(event) = self.events.next() else {
                return None;
            };
            let note = heard(
                event,
                &mut self.bar,
                &mut self.bar_events,
                &self.events,
                all,
            );
            if note.is_some() {
                return note;
            }
            let note = plain_note(&mut self.bar, &mut self.bar_events, &mut self.events, all);
            if note.is_some() {
                return note;
            }
        }
    }
}

impl<'a> Iterator for Notes<'a> {
    type Item = NoteToken<'a>;

    ghost next_gives = { YieldsFirstBy token_note (λ notes. notes) };

    ghost remaining = { item_count (λ notes. notes) };

    #[inline(always)]
    fn next(&mut self) -> Option<NoteToken<'a>> {
        self.first_note(true)
    }
}

/// The notes of a tune or of a music line that count, in order (this archive's profile: of a chord
/// the first note counts). A clause sees the list of those that are left.
#[derive(Drop)]
pub struct CountingNotes<'a> {
    notes: Notes<'a>,
}

impl<'a> Model for CountingNotes<'a> {
    ghost use Rattle.std.specs.Prelude.{List};
    ghost use Rattle.abc_notes.specs.Pitches.{SoundedNote, counting};

    ghost Value = { List SoundedNote };

    ghost view = { λ reader. counting reader.notes };
}

impl<'a> Iterator for CountingNotes<'a> {
    type Item = NoteToken<'a>;

    ghost next_gives = { YieldsFirstBy token_note (λ notes. notes) };

    ghost remaining = { item_count (λ notes. notes) };

    #[inline(always)]
    fn next(&mut self) -> Option<NoteToken<'a>> {
        self.notes.first_note(false)
    }
}

// Takes the first note that is asked for where it and the events before it are plain, as is most
// often so. Else it takes none, but may pass over events before it.
#[inline(always)]
fn plain_note<'a>(
    bar: &mut Bar<'a>,
    bar_events: &mut TuneEvents<'a>,
    events: &mut TuneEvents<'a>,
    all: bool,
) -> Option<NoteToken<'a>>
    requires { IsKeptBar bar.old bar_events.old events.old }
    ensures kept { IsKeptBar bar.new bar_events.new events.new }
    ensures notes { asked_notes all (notes_left bar.old bar_events.old events.old)
        ≡ notes_of_token result ++ asked_notes all (notes_left bar.new bar_events.new events.new) }
    ensures shorter { length events.new ≤ length events.old }
{
    'events: loop {
        let Some(event) = events.next_plain() else {
            return None;
        };
        let note = heard(event, bar, bar_events, events, all);
        if note.is_some() {
            return note;
        }
    }
}

// Takes an event into what is kept of its bar, and gives the note that it is, if it is one that is
// asked for: any, or one that counts. `events` are those after it.
#[inline(always)]
fn heard<'a>(
    event: Event<'a>,
    bar: &mut Bar<'a>,
    bar_events: &mut TuneEvents<'a>,
    events: &TuneEvents<'a>,
    all: bool,
) -> Option<NoteToken<'a>>
    requires { IsKeptBar bar.old bar_events.old (event_of event ∷ events.now) }
    ensures kept { IsKeptBar bar.new bar_events.new events.now }
    ensures notes { asked_notes all (notes_left bar.old bar_events.old
        (event_of event.entry ∷ events.now))
        ≡ notes_of_token result ++ asked_notes all (notes_left bar.new bar_events.new events.now) }
{
    match event {
        Event::Note(note) => {
            if all || note.counts {
                let accidental = accidental_in_force(bar, bar_events, note);
                bar.take_note(note);
                return Some(token(note, accidental));
            }
            bar.take_note(note);
            None
        }
        Event::Bar => {
            end_bar(bar, bar_events, events);
            None
        }
        Event::Change(text) => {
            bar.take_change(KeySignature::of_text(text));
            None
        }
    }
}

// How many events a bar has to have, those of shorter bars before it among them, for the next one
// to be read from a reader of its own: to copy a reader costs more than a bar line.
const LONG_BAR: usize = 16;

// Takes a bar line, after which these are the events.
fn end_bar<'a>(bar: &mut Bar, bar_events: &mut TuneEvents<'a>, events: &TuneEvents<'a>)
    requires { IsKeptBar bar.old bar_events.old (bar_line ∷ events.now) }
    ensures kept { IsKeptBar bar.new bar_events.new events.now }
    ensures notes { notes_left bar.old bar_events.old (bar_line ∷ events.now)
        ≡ notes_left bar.new bar_events.new events.now }
{
    if bar.since < LONG_BAR {
        bar.take_bar();
        return;
    }
    begin_bar(bar, bar_events, events);
}

// Begins a bar, of which these are the events.
#[inline(never)]
fn begin_bar<'a>(bar: &mut Bar, bar_events: &mut TuneEvents<'a>, events: &TuneEvents<'a>)
    ensures after { IsBarAfter [] bar.new }
    ensures start { bar.new.start ≡ bar.old.signature }
    ensures events { bar_events.new ≡ events.now }
{
    bar.begin();
    *bar_events = events.again();
}

// A note with its pitch.
#[inline(always)]
fn token<'a>(note: WrittenNote<'a>, accidental: Accidental) -> NoteToken<'a>
    ensures { token_note result ≡ sounded (written_note note.entry) accidental }
{
    NoteToken {
        from: note.from,
        to: note.to,
        text: note.text,
        pitch: pitch_of(&note, accidental),
        counts: note.counts,
    }
}
