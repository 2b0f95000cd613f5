// The events inside a chord.
ghost use Rattle.std.specs.Prelude.{◌≡◌, ◌+◌, ◌≤◌, ◌&&◌, not, true, [], List, ◌++◌, length};
ghost use Rattle.std.specs.Iterator.{YieldsFirstBy, item_count};
ghost use Rattle.abc_fields.specs.Limits.{longest_book};
ghost use Rattle.abc_items.specs.ItemSpans.{item_spans_of};
ghost use Rattle.abc_notes.specs.Inside.Bounds.{AreShort};
ghost use Rattle.abc_notes.specs.Events.{Event as AnyEvent};
ghost use Rattle.abc_notes.specs.Inside.EventView.{event_of, events_of};
ghost use Rattle.abc_notes.specs.Music.{chord_events, is_note};

use crate::events::Event;
use crate::item_events::{next_telling, plain_event};
use abc_items::{Items, Kind};
use std::marker::Model;

// The events inside a chord that are left. A clause sees their list.
#[derive(Drop)]
pub(crate) struct ChordEvents<'a> {
    base: usize,
    items: Items<'a>,
    // Whether no note has come.
    first: bool,
}

impl<'a> Model for ChordEvents<'a> {
    ghost Value = { List AnyEvent };

    ghost view = { λ events. chord_events events.base events.first events.items };

    ghost invariant = { λ events. AreShort events.base events.items };
}

impl<'a> ChordEvents<'a> {
    // The events of what is inside a chord, which begins at `base`.
    pub fn new(inside: &'a [u8], base: usize) -> ChordEvents<'a>
        requires { base + length inside.now ≤ longest_book }
        ensures { result ≡ chord_events base true (item_spans_of inside.now) }
    {
        ChordEvents {
            base,
            items: Items::new(inside),
            first: true,
        }
    }

    // No events.
    #[tactic(auto, unfolding(crate::specs::Music::chord_events))]
    pub fn none() -> ChordEvents<'a>
        ensures { result ≡ [] }
    {
        ChordEvents::new(b"", 0)
    }

    // A second reader of the events that are left.
    pub fn again(&self) -> ChordEvents<'a>
        ensures { result ≡ self.now }
    {
        ChordEvents {
            base: self.base,
            items: self.items.again(),
            first: self.first,
        }
    }

    // Takes the first event that is left where it and the items before it are plain bytes. Else it
    // takes none, but may pass over items that mean nothing.
    #[inline(always)]
    pub fn next_plain(&mut self) -> Option<Event<'a>>
        ensures { self.old ≡ events_of result ++ self.new }
    {
        'items: loop {
            let Some(item) = self.items.next_plain() else {
                return None;
            };
            let event = plain_event(item, self.base, self.first);
            self.first = stays_first(self.first, item.kind);
            if event.is_some() {
                return event;
            }
        }
    }

    // Takes the first event that is left.
    #[inline(always)]
    fn first_event(&mut self) -> Option<Event<'a>>
        ensures { YieldsFirstBy event_of (λ events. events) self.old result self.new }
    {
        'items: loop {
            let Some(item) = next_telling(&mut self.items, self.base) else {
                return None;
            };
            let event = plain_event(item, self.base, self.first);
            self.first = stays_first(self.first, item.kind);
            if event.is_some() {
                return event;
            }
        }
    }
}

// Whether the next note of a chord is its first, after an item of this kind.
fn stays_first(first: bool, kind: Kind) -> bool
    ensures { result ≡ first && not (is_note kind) }
{
    first && !matches!(kind, Kind::Note)
}

impl<'a> Iterator for ChordEvents<'a> {
    type Item = Event<'a>;

    ghost next_gives = { YieldsFirstBy event_of (λ events. events) };

    ghost remaining = { item_count (λ events. events) };

    #[inline(always)]
    fn next(&mut self) -> Option<Event<'a>> {
        self.first_event()
    }
}
