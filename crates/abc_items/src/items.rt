// The items of a text.
ghost use Rattle.std.specs.Prelude.{◌≡◌, ◌+◌, ◌^◌, ◌<◌, ◌++◌, List, map, length, is_some};
ghost use Rattle.std.specs.Prelude.{IfSome, true};
ghost use Rattle.std.specs.Iterator.{YieldsFirstBy, item_count};
ghost use Rattle.std.specs.List.{All};
ghost use Rattle.abc_items.specs.Grammar.{ItemText, AreItems};
ghost use Rattle.abc_fields.specs.Bytes.{begins};
ghost use Rattle.abc_items.specs.NoteFronts.{is_note_name};
ghost use Rattle.abc_items.specs.ItemSpans.{items_of, ItemSpan, item_spans_from, item_spans_of};
ghost use Rattle.abc_items.specs.ItemSpans.{item_text_of, ItemSpansFill, FitsItsRow};
ghost use Rattle.abc_items.specs.Inside.Misses.{AreMissing};
ghost use Rattle.abc_items.specs.ItemView.{item_span};
ghost use Rattle.abc_items.specs.Plain.{begin_plain, item_spans_in, is_aside, past_asides};

use crate::item_rows::{Misses, first_item, plain_kind};
use crate::kinds::Kind;
use std::marker::Model;

/// An item of a music line.
#[derive(Clone, Copy, Debug)]
pub struct Item<'a> {
    /// Which row of the table of items it is of.
    pub kind: Kind,
    /// The index of its first byte in the text that the items were read from.
    pub from: usize,
    /// The index past its last byte.
    pub to: usize,
    /// Its bytes, of which there is at least one.
    pub text: &'a [u8],
}

/// The items of a text, in order, as parts of it (ABC 2.1, 3.2 and 4.1 to 4.19). A clause sees the
/// list of the items that are left.
#[derive(Drop)]
pub struct Items<'a> {
    rest: &'a [u8],
    at: usize,
    misses: Misses,
}

impl<'a> Model for Items<'a> {
    ghost Value = { List ItemSpan };

    ghost view = { λ items. item_spans_from items.at (items_of items.rest.now) };

    ghost invariant = { λ items. (items.at + length items.rest.now < 2 ^ 64)
        × AreMissing items.misses items.rest.now };
}

impl<'a> Items<'a> {
    /// The items of `text`: a music line, or what is inside a chord. To read them all takes time
    /// linear in the length of the text.
    ///
    /// The law of items stands beside it: they are items by the table, and the text has no other
    /// items; their texts are the whole text, one after another, from its front to its end. Each is
    /// of its row, so that a note's text is an accidental as it is written, a byte that names a
    /// letter, and octave marks; an inline field's is `[`, a letter, `:`, the value and `]`; a
    /// chord's is `[`, its inside, which has no `[`, `]` or `|`, and `]`.
    pub fn new(text: &'a [u8]) -> Items<'a>
        ensures items { result ≡ item_spans_of text.now }

        ensures are_items { AreItems (items_of text.now) text.now }
        ensures no_other_items { (items : List ItemText) → AreItems items text.now
            → items ≡ items_of text.now }
        ensures texts { map item_text_of (item_spans_of text.now) ≡ items_of text.now }
        ensures fill { ItemSpansFill text.now 0 (item_spans_of text.now) }
        ensures rows { All (FitsItsRow text.now) (item_spans_of text.now) }
    {
        Items {
            rest: text,
            at: 0,
            misses: Misses {
                brace: false,
                bracket: false,
            },
        }
    }

    /// Takes the first item that is left where it is one byte, none of those that begin the longer
    /// rows, as most items are. Else it takes none.
    #[inline(always)]
    pub fn next_plain(&mut self) -> Option<Item<'a>>
        ensures steps { self.old ≡ item_spans_in result ++ self.new }
        ensures plain { is_some result ≡ begin_plain self.old }
        ensures name { IfSome result (λ item. item.kind ≡ Kind.Note
            → begins is_note_name item.text.now ≡ true) }
    {
        let Some(kind) = plain_kind(self.rest) else {
            return None;
        };
        let (text, later) = self.rest.split_at(1);
        let from = self.at;
        self.rest = later;
        self.at = from + 1;
        Some(Item {
            kind,
            from,
            to: from + 1,
            text,
        })
    }

    /// Takes the items up to the first that is no aside, and that one, which it gives: a note, a
    /// bar, an inline field or a chord. Asides, which say nothing of notes, are the items of the
    /// other kinds. Where all are asides, it takes all and gives none.
    #[inline(always)]
    pub fn next_past_asides(&mut self) -> Option<Item<'a>>
        ensures { YieldsFirstBy item_span (λ items. items) (past_asides self.old) result self.new }
    {
        'items: loop {
            let Some(item) = self.next() else {
                return None;
            };
            if !is_aside(item.kind) {
                return Some(item);
            }
        }
    }

    /// A second reader of the items that are left.
    pub fn again(&self) -> Items<'a>
        ensures { result ≡ self.now }
    {
        Items {
            rest: self.rest,
            at: self.at,
            misses: self.misses,
        }
    }
}

impl<'a> Iterator for Items<'a> {
    type Item = Item<'a>;

    ghost next_gives = { YieldsFirstBy item_span (λ items. items) };

    ghost remaining = { item_count (λ items. items) };

    #[inline(always)]
    fn next(&mut self) -> Option<Item<'a>> {
        if self.rest.is_empty() {
            return None;
        }
        let front = first_item(self.rest, &mut self.misses);
        let (text, rest) = self.rest.split_at(front.length);
        let from = self.at;
        let to = from + front.length;
        self.rest = rest;
        self.at = to;
        Some(Item {
            kind: front.kind,
            from,
            to,
            text,
        })
    }
}

fn is_aside(kind: Kind) -> bool
    ensures { result ≡ is_aside kind }
{
    !matches!(
        kind,
        Kind::Note | Kind::Bar | Kind::InlineField | Kind::Chord
    )
}
