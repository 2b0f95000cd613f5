// The events of a tune: those of the music lines and the keys of its body.
ghost use Rattle.std.specs.Prelude.{◌≡◌, ◌+◌, ◌≤◌, ◌++◌, List, [], length, false, IsTrue};
ghost use Rattle.std.specs.Iterator.{YieldsFirstBy, item_count};
ghost use Rattle.abc_fields.specs.Limits.{longest_book};
ghost use Rattle.abc_fields.specs.LineView.{line_span};
ghost use Rattle.abc_items.specs.ItemSpans.{item_spans_of};
ghost use Rattle.abc_keys.specs.Keys.{key_of_text, signature_of};
ghost use Rattle.abc_notes.specs.Inside.Bounds.{AreShort, LinesAreShort};
ghost use Rattle.abc_notes.specs.Events.{Event as AnyEvent};
ghost use Rattle.abc_notes.specs.Inside.EventView.{event_of, events_of};
ghost use Rattle.abc_notes.specs.Music.{line_events, line_meaning, body_events};
ghost use Rattle.abc_notes.specs.Music.{tune_events, tune_signature, music_events};

use crate::events::Event;
use crate::line_events::LineEvents;
use abc_fields::{
    Line, Lines, TuneBody, TuneText, field_value, in_part_after, is_comment, is_continuation,
    is_field_line, is_key_line, without_comment,
};
use abc_items::Items;
use std::marker::Model;

// The events of a tune that are left. A clause sees their list.
#[derive(Drop)]
pub(crate) struct TuneEvents<'a> {
    line: LineEvents<'a>,
    lines: Lines<'a>,
    // Whether the next line lies within a part.
    in_part: bool,
}

impl<'a> Model for TuneEvents<'a> {
    ghost Value = { List AnyEvent };

    ghost view = { λ events. events.line ++ body_events events.in_part events.lines };

    ghost invariant = { λ events. LinesAreShort events.lines };
}

impl<'a> TuneEvents<'a> {
    // The events of one music line, which is all there is.
    pub fn of_line(line: &'a [u8]) -> TuneEvents<'a>
        requires { length line.now ≤ longest_book }
        ensures events { result ≡ line_events 0 (item_spans_of line.now) }
        ensures few { length result ≤ longest_book }
    {
        TuneEvents {
            line: LineEvents::new(line, 0),
            lines: Lines::new(b""),
            in_part: false,
        }
    }

    // The events of items that are left of a line that begins at `base`, and of the lines after it.
    pub fn of_parts(
        items: Items<'a>,
        base: usize,
        lines: Lines<'a>,
        in_part: bool,
    ) -> TuneEvents<'a>
        requires items { AreShort base items }
        requires lines { LinesAreShort lines }
        ensures { result ≡ line_events base items.entry ++ body_events in_part lines.entry }
    {
        TuneEvents {
            line: LineEvents::of_items(items, base),
            lines,
            in_part,
        }
    }

    // The text of the key with which a tune begins, and the events after its header.
    #[inline(always)]
    pub fn of_tune(text: &'a TuneText) -> (&'a [u8], TuneEvents<'a>)
        ensures key { signature_of (key_of_text result.0.now) ≡ tune_signature text.now }
        ensures events { result.1 ≡ tune_events text.now }
        ensures few { length result.1 ≤ longest_book }
    {
        let TuneBody {
            key,
            lines,
            in_part,
            ..
        } = text.body();
        let events = TuneEvents {
            line: LineEvents::none(),
            lines,
            in_part,
        };
        (key, events)
    }

    // A second reader of the events that are left.
    pub fn again(&self) -> TuneEvents<'a>
        ensures { result ≡ self.now }
    {
        TuneEvents {
            line: self.line.again(),
            lines: self.lines.again(),
            in_part: self.in_part,
        }
    }

    // The same as `LineEvents::next_plain`, for what is left of the line in hand.
    #[inline(always)]
    pub fn next_plain(&mut self) -> Option<Event<'a>>
        ensures { self.old ≡ events_of result ++ self.new }
    {
        self.line.next_plain()
    }

    // Takes the first event that is left.
    #[inline(always)]
    fn first_event(&mut self) -> Option<Event<'a>>
        ensures { YieldsFirstBy event_of (λ events. events) self.old result self.new }
    {
        'lines: loop {
            let event = self.line.next();
            if event.is_some() {
                return event;
            }
            let Some(line) = self.lines.next() else {
                return None;
            };
            let event = take_line(&mut self.line, line, self.in_part);
            self.in_part = in_part_after(self.in_part, line.text);
            if event.is_some() {
                return event;
            }
        }
    }
}

// Whether a line of the body is music.
#[inline(always)]
pub(crate) fn is_music(line: Line, in_part: bool) -> bool
    ensures { IsTrue result → line_meaning in_part (line_span line.entry)
        ≡ music_events line.entry.from line.entry.text.now }
{
    let text = line.text;
    if in_part || is_key_line(text) {
        return false;
    }
    let is_aside = is_field_line(text) || is_continuation(text) || is_comment(text);
    !is_aside
}

// Takes a line of the body, where the line in hand is spent: it means nothing, as within a part, or
// a change of key, or it is music, which is taken in hand.
#[inline(always)]
fn take_line<'a>(hand: &mut LineEvents<'a>, line: Line<'a>, in_part: bool) -> Option<Event<'a>>
    requires spent { hand.old ≡ [] }
    requires short { line.from + length line.text.now ≤ longest_book }
    ensures { events_of result ++ hand.new ≡ line_meaning in_part (line_span line.entry) }
{
    let text = line.text;
    if in_part {
        return None;
    }
    if is_key_line(text) {
        return Some(Event::Change(field_value(text)));
    }
    let is_aside = is_field_line(text) || is_continuation(text) || is_comment(text);
    if !is_aside {
        hand.begin(without_comment(text), line.from);
    }
    None
}

impl<'a> Iterator for TuneEvents<'a> {
    type Item = Event<'a>;

    ghost next_gives = { YieldsFirstBy event_of (λ events. events) };

    ghost remaining = { item_count (λ events. events) };

    #[inline(always)]
    fn next(&mut self) -> Option<Event<'a>> {
        self.first_event()
    }
}
