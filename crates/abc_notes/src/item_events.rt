// The event that one item of a music line is.
ghost use Rattle.std.specs.Prelude.{◌≡◌, ◌≤◌, ◌<◌, ◌+◌, ◌∷◌, [], ◌≤ℤ◌, IsTrue};
ghost use Rattle.std.specs.Prelude.{length, count_by, IfSome};
ghost use Rattle.std.specs.Iterator.{YieldsFirstBy};
ghost use Rattle.abc_fields.specs.Limits.{longest_book};
ghost use Rattle.abc_items.specs.ItemView.{item_span};
ghost use Rattle.abc_items.specs.Plain.{past_asides};
ghost use Rattle.abc_fields.specs.Bytes.{is_one_of};
ghost use Rattle.abc_notes.specs.Inside.EventView.{written_note, events_of};
ghost use Rattle.abc_notes.specs.Inside.Bounds.{lowest_octave, highest_octave, AreShort, IsShort};
ghost use Rattle.abc_notes.specs.Music.{octave_of, written, plain_events, inline_events};

use crate::events::{Event, WrittenNote};
use abc_items::{Item, Items, Kind, own_accidental, spelling_length};
use abc_keys::{Letter, letter_of};

// Takes the items up to the first that may be an event, or events, and that one.
#[inline(always)]
pub(crate) fn next_telling<'a>(items: &mut Items<'a>, base: usize) -> Option<Item<'a>>
    requires { AreShort base items.old }
    ensures steps { YieldsFirstBy item_span (λ items. items)
        (past_asides items.old) result items.new }
    ensures one { IfSome result (λ item. IsShort base (item_span item)) }
    ensures short { AreShort base items.new }
    ensures fewer { IfSome result (λ item. length items.new < length items.old) }
{
    items.next_past_asides()
}

// The event of an item that is no chord and no field, if it is one. The text of the items begins at
// `base`.
#[tactic(auto, unfolding(crate::specs::Music::plain_events))]
#[inline(always)]
pub(crate) fn plain_event<'a>(item: Item<'a>, base: usize, counts: bool) -> Option<Event<'a>>
    requires ordered { item.from + length item.text.now ≡ item.to }
    requires short { base + item.to ≤ longest_book }
    ensures { events_of result ≡ plain_events base counts item.entry.kind (item_span item.entry) }
{
    match item.kind {
        Kind::Note => Some(Event::Note(written(item, base, counts))),
        Kind::Bar => Some(Event::Bar),
        _ => None,
    }
}

// The change of key that an inline field is, if it is one.
pub(crate) fn inline_event(text: &[u8]) -> Option<Event<'_>>
    ensures { events_of result ≡ inline_events text.now }
{
    match text {
        [_, b'K', _, rest @ ..] => {
            let value = &rest[..rest.len().saturating_sub(1)];
            Some(Event::Change(value))
        }
        _ => None,
    }
}

// The note that an item is.
#[tactic(auto, unfolding(crate::specs::Music::written))]
#[inline(always)]
fn written<'a>(item: Item<'a>, base: usize, counts: bool) -> WrittenNote<'a>
    requires ordered { item.from + length item.text.now ≡ item.to }
    requires short { base + item.to ≤ longest_book }
    ensures { written_note result ≡ written base counts (item_span item.entry) }
{
    let own = own_accidental(item.text);
    let before = spelling_length(own);
    let (name, marks) = if before < item.text.len() {
        (item.text[before], &item.text[before + 1..])
    } else {
        (0, &item.text[item.text.len()..])
    };
    WrittenNote {
        from: base + item.from,
        to: base + item.to,
        text: item.text,
        letter: letter_of(name).unwrap_or(Letter::C),
        octave: octave_of(name, marks),
        own,
        counts,
    }
}

pub(crate) fn is_note(kind: Kind) -> bool
    ensures yes { IsTrue result → kind ≡ Kind.Note }
    ensures no { kind ≡ Kind.Note → IsTrue result }
{
    matches!(kind, Kind::Note)
}

// A small letter is an octave higher, each ' adds one and each , takes one.
pub(crate) fn octave_of(name: u8, marks: &[u8]) -> i32
    requires { length marks.now + 1 ≤ longest_book }
    ensures value { result ≡ octave_of name marks.now }
    ensures low { lowest_octave ≤ℤ result }
    ensures high { result ≤ℤ highest_octave }
{
    let small = if name.is_ascii_lowercase() && name <= b'g' {
        1
    } else {
        0
    };
    // Most notes have no octave marks.
    if marks.is_empty() {
        return small as i32;
    }
    let up = small + times(marks, b'\'');
    up as i32 - times(marks, b',') as i32
}

// How often a mark stands among others.
fn times(marks: &[u8], wanted: u8) -> usize
    ensures value { result ≡ count_by (λ mark. is_one_of (wanted ∷ []) mark) marks.now }
    ensures within { result ≤ length marks.now }
{
    marks.iter().filter(|mark| **mark == wanted).count()
}
