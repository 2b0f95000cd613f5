// The events of a music line.
ghost use Rattle.std.specs.Prelude.{◌≡◌, ◌≢◌, ◌+◌, ◌<◌, ◌≤◌, ◌++◌, [], List, false, length, IsTrue};
ghost use Rattle.std.specs.Iterator.{YieldsFirstBy, item_count};
ghost use Rattle.abc_fields.specs.Limits.{longest_book};
ghost use Rattle.abc_items.specs.ItemView.{item_span};
ghost use Rattle.abc_items.specs.ItemSpans.{item_spans_of};
ghost use Rattle.abc_notes.specs.Inside.Bounds.{AreShort, IsShort};
ghost use Rattle.abc_notes.specs.Events.{Event as AnyEvent};
ghost use Rattle.abc_notes.specs.Inside.EventView.{event_of, events_of};
ghost use Rattle.abc_notes.specs.Music.{line_events, item_events, inside_of};

use crate::chord_events::ChordEvents;
use crate::events::Event;
use crate::item_events::{inline_event, next_telling, plain_event};
use abc_items::{Item, Items, Kind};
use std::marker::Model;

// The events of a music line that are left. A clause sees their list.
#[derive(Drop)]
pub(crate) struct LineEvents<'a> {
    base: usize,
    items: Items<'a>,
    // What is left of a chord that has been begun, and whether one has.
    chord: ChordEvents<'a>,
    in_chord: bool,
}

impl<'a> Model for LineEvents<'a> {
    ghost Value = { List AnyEvent };

    ghost view = { λ events. events.chord ++ line_events events.base events.items };

    ghost invariant = { λ events. AreShort events.base events.items
        × (events.in_chord ≡ false → events.chord ≡ []) };
}

impl<'a> LineEvents<'a> {
    // The events of a music line, which begins at `base`.
    pub fn new(line: &'a [u8], base: usize) -> LineEvents<'a>
        requires { base + length line.now ≤ longest_book }
        ensures { result ≡ line_events base (item_spans_of line.now) }
    {
        LineEvents {
            base,
            items: Items::new(line),
            chord: ChordEvents::none(),
            in_chord: false,
        }
    }

    // The events of items of a music line, which begins at `base`.
    pub fn of_items(items: Items<'a>, base: usize) -> LineEvents<'a>
        requires { AreShort base items }
        ensures { result ≡ line_events base items.entry }
    {
        LineEvents {
            base,
            items,
            chord: ChordEvents::none(),
            in_chord: false,
        }
    }

    // No events.
    #[tactic(auto, unfolding(crate::specs::Music::line_events))]
    pub fn none() -> LineEvents<'a>
        ensures { result ≡ [] }
    {
        LineEvents::new(b"", 0)
    }

    // Takes a music line in hand, which begins at `base`, where no event is left.
    #[inline(always)]
    pub fn begin(&mut self, line: &'a [u8], base: usize)
        requires spent { self.old ≡ [] }
        requires short { base + length line.now ≤ longest_book }
        ensures { self.new ≡ line_events base (item_spans_of line.now) }
    {
        self.base = base;
        self.items = Items::new(line);
        self.in_chord = false;
    }

    // A second reader of the events that are left.
    pub fn again(&self) -> LineEvents<'a>
        ensures { result ≡ self.now }
    {
        LineEvents {
            base: self.base,
            items: self.items.again(),
            chord: self.chord.again(),
            in_chord: self.in_chord,
        }
    }

    // Takes the first event that is left where it and the items before it are plain bytes, as is
    // most often so. Else it takes none, but may pass over items that mean nothing. Of a chord it
    // takes none but those inside.
    #[inline(always)]
    pub fn next_plain(&mut self) -> Option<Event<'a>>
        ensures { self.old ≡ events_of result ++ self.new }
    {
        if self.in_chord {
            return self.chord.next_plain();
        }
        plain_event_of(&mut self.items, self.base)
    }

    // Takes the first event that is left.
    #[inline(always)]
    fn first_event(&mut self) -> Option<Event<'a>>
        ensures { YieldsFirstBy event_of (λ events. events) self.old result self.new }
    {
        'items: loop {
            let event = next_of_chord(&mut self.chord, &mut self.in_chord);
            if event.is_some() {
                return event;
            }
            let Some(item) = next_telling(&mut self.items, self.base) else {
                return None;
            };
            if is_chord(item.kind) {
                self.chord = chord_events(item, self.base);
                self.in_chord = true;
                continue;
            }
            let event = item_event(item, self.base);
            if event.is_some() {
                return event;
            }
        }
    }
}

// Takes the first event of a chord, where one has been begun.
#[inline(always)]
fn next_of_chord<'a>(chord: &mut ChordEvents<'a>, in_chord: &mut bool) -> Option<Event<'a>>
    requires { in_chord.old ≡ false → chord.old ≡ [] }
    ensures steps { YieldsFirstBy event_of (λ events. events) chord.old result chord.new }
    ensures ended { in_chord.new ≡ false → chord.new ≡ [] }
{
    if !*in_chord {
        return None;
    }
    let event = chord.next();
    *in_chord = event.is_some();
    event
}

// Takes the first event of items where it and the items before it are plain bytes. Else it takes
// none, but may pass over items that mean nothing.
#[inline(always)]
fn plain_event_of<'a>(items: &mut Items<'a>, base: usize) -> Option<Event<'a>>
    requires { AreShort base items.old }
    ensures events { line_events base items.old ≡ events_of result ++ line_events base items.new }
    ensures short { AreShort base items.new }
    ensures shorter { length items.new ≤ length items.old }
{
    'items: loop {
        let Some(item) = items.next_plain() else {
            return None;
        };
        let event = item_event(item, base);
        if event.is_some() {
            return event;
        }
    }
}

fn is_chord(kind: Kind) -> bool
    ensures yes { IsTrue result → kind ≡ Kind.Chord }
    ensures no { kind ≡ Kind.Chord → IsTrue result }
{
    matches!(kind, Kind::Chord)
}

// The events of a chord.
fn chord_events<'a>(item: Item<'a>, base: usize) -> ChordEvents<'a>
    requires short { IsShort base (item_span item) }
    requires chord { item.kind ≡ Kind.Chord }
    ensures { result ≡ item_events base item.entry.kind (item_span item.entry) }
{
    ChordEvents::new(inside_of(item.text), base + item.from + 1)
}

// The event of an item that is no chord, if it is one.
#[inline(always)]
fn item_event<'a>(item: Item<'a>, base: usize) -> Option<Event<'a>>
    requires short { IsShort base (item_span item) }
    requires no_chord { item.kind ≢ Kind.Chord }
    ensures { events_of result ≡ item_events base item.entry.kind (item_span item.entry) }
{
    match item.kind {
        Kind::InlineField => inline_event(item.text),
        _ => plain_event(item, base, true),
    }
}

// The bytes between the brackets of a chord.
fn inside_of(text: &[u8]) -> &[u8]
    requires { 2 ≤ length text.now }
    ensures value { result.now ≡ inside_of text.now }
    ensures shorter { length result.now + 2 ≡ length text.now }
{
    &text[1..text.len() - 1]
}

impl<'a> Iterator for LineEvents<'a> {
    type Item = Event<'a>;

    ghost next_gives = { YieldsFirstBy event_of (λ events. events) };

    ghost remaining = { item_count (λ events. events) };

    #[inline(always)]
    fn next(&mut self) -> Option<Event<'a>> {
        self.first_event()
    }
}
