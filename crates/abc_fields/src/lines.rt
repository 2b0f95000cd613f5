// The lines of a text.
ghost use Rattle.std.specs.Prelude.{◌≡◌, ℕ, ◌+◌, ◌^◌, ◌<◌, ◌≤◌, List, ◌∷◌, ◌++◌, map, length};
ghost use Rattle.std.specs.Prelude.{take, drop, IsTrue, IfSome, false};
ghost use Rattle.std.specs.Iterator.{YieldsFirstBy, item_count};
ghost use Rattle.abc_fields.specs.Lines.{Piece, Span, Divides, SpansRise, SpansFollow, pieces_of};
ghost use Rattle.abc_fields.specs.Lines.{spans_from, spans_of, lines_of};
ghost use Rattle.abc_fields.specs.LineView.{line_span};
ghost use Rattle.abc_fields.specs.Inside.LineEndings.{ending_length, has_return};
ghost use Rattle.abc_fields.specs.Limits.{longest_tune};
ghost use Rattle.abc_fields.specs.Inside.LinesLeft.{contents_of, HasLines};
ghost use Rattle.abc_fields.specs.Tunes.{IsTuneText, joined};
ghost use Rattle.abc_fields.specs.Bytes.{line_feed, carriage_return};
ghost use Rattle.memchr.specs.Find.{IsFirstByte, is_byte, is_byte2};

use crate::texts::TuneText;
use memchr::{memchr, memchr_iter, memchr2_iter};
use std::marker::Model;

/// A line of a text, without what ends it.
#[derive(Clone, Copy, Debug)]
pub struct Line<'a> {
    /// The index of its first byte in the text.
    pub from: usize,
    /// The index past its last byte.
    pub to: usize,
    /// Its bytes.
    pub text: &'a [u8],
}

/// The lines of a text, in order, as parts of it (ABC 2.1, 2.2): a line ends at a line feed, at a
/// carriage return and a line feed, or at a carriage return alone, and the last line also at the
/// text's end, where it has a byte. A clause sees the list of the lines that are left.
#[derive(Drop)]
pub struct Lines<'a> {
    rest: &'a [u8],
    at: usize,
    // Whether only line feeds end the lines that are left: no carriage return stands in them.
    only_feeds: bool,
}

impl<'a> Model for Lines<'a> {
    ghost Value = { List Span };

    ghost view = { λ lines. spans_from lines.at (pieces_of lines.rest.now) };

    ghost invariant = { λ lines. (lines.at + length lines.rest.now < 2 ^ 64)
        × (IsTrue lines.only_feeds → has_return lines.rest.now ≡ false) };
}

impl<'a> Lines<'a> {
    /// The lines of `text`. A byte order mark at its front is a part of the first line.
    ///
    /// The law of lines stands beside it: a text is its pieces, one after another, each a content
    /// and an ending; no other pieces divide it so; the lines are their contents, each the part of
    /// the text from where it begins to where it ends, one after another.
    pub fn new(text: &'a [u8]) -> Lines<'a>
        ensures lines { result ≡ spans_of text.now }
        ensures pieces { Divides (pieces_of text.now) text.now }
        ensures no_other_pieces { (ps : List Piece) → Divides ps text.now
            → ps ≡ pieces_of text.now }
        ensures contents { map (λ s. s.bytes) (spans_of text.now)
            ≡ map (λ p. p.content) (pieces_of text.now) }
        ensures rising { SpansRise text.now 0 (spans_of text.now) }
        ensures after_pieces { SpansFollow text.now (pieces_of text.now) }
    {
        Lines {
            rest: text,
            at: 0,
            only_feeds: false,
        }
    }

    /// The lines of a tune: a line feed ends each, so it alone is looked for.
    pub fn of_tune(text: &'a TuneText) -> Lines<'a>
        ensures lines { result ≡ spans_of text.now }
        ensures contents { map (λ s. s.bytes) (spans_of text.now)
            ≡ map (λ p. p.content) (pieces_of text.now) }
        ensures rising { SpansRise text.now 0 (spans_of text.now) }
        ensures tune_text { IsTuneText text.now }
        ensures short { length text.now ≤ longest_tune }
    {
        Lines::without_return(text.bytes())
    }

    // The lines of a text that is read to its end, and more than once: a carriage return is looked
    // for in all of it first, so that mostly line feeds alone are looked for after that.
    pub(crate) fn of_whole(text: &'a [u8]) -> Lines<'a>
        ensures { result ≡ spans_of text.now }
    {
        Lines {
            rest: text,
            at: 0,
            only_feeds: !has_return(text),
        }
    }

    // The lines of a text in which no carriage return stands.
    pub(crate) fn without_return(text: &'a [u8]) -> Lines<'a>
        requires { has_return text.now ≡ false }
        ensures { result ≡ spans_of text.now }
    {
        Lines {
            rest: text,
            at: 0,
            only_feeds: true,
        }
    }

    // The lines of what stands from this index on in a text in which no carriage return stands.
    pub(crate) fn from_index(text: &'a [u8], from: usize) -> Lines<'a>
        requires feeds { has_return text.now ≡ false }
        requires within { from ≤ length text.now }
        ensures { result ≡ spans_from from (pieces_of (drop from text.now)) }
    {
        Lines {
            rest: &text[from..],
            at: from,
            only_feeds: true,
        }
    }

    // The part of the text from this reader to a later one, where a line feed ends each line.
    pub(crate) fn part_before(&self, later: &Lines<'a>) -> Option<&'a [u8]>
        ensures { IfSome result (λ part. (gone : List (List ℕ))
            → gone ++ contents_of later.now ≡ contents_of self.now → HasLines part.now gone) }
    {
        if !ends_with_feeds(self.rest, self.only_feeds) {
            return None;
        }
        if !ends_with_feeds(later.rest, later.only_feeds) {
            return None;
        }
        if self.rest.len() < later.rest.len() {
            return None;
        }
        Some(&self.rest[..self.rest.len() - later.rest.len()])
    }

    /// A second reader of the lines that are left.
    pub fn again(&self) -> Lines<'a>
        ensures { result ≡ self.now }
    {
        Lines {
            rest: self.rest,
            at: self.at,
            only_feeds: self.only_feeds,
        }
    }
}

impl<'a> Iterator for Lines<'a> {
    type Item = Line<'a>;

    ghost next_gives = { YieldsFirstBy line_span (λ lines. lines) };

    ghost remaining = { item_count (λ lines. lines) };

    #[inline(always)]
    fn next(&mut self) -> Option<Line<'a>> {
        if self.rest.is_empty() {
            return None;
        }
        let (len, skip) = first_line(self.rest, self.only_feeds);
        let from = self.at;
        let text = &self.rest[..len];
        self.rest = &self.rest[len + skip..];
        self.at = from + len + skip;
        Some(Line {
            from,
            to: from + len,
            text,
        })
    }
}

// Whether there is a carriage return.
pub(crate) fn has_return(text: &[u8]) -> bool
    ensures { result ≡ has_return text.now }
{
    memchr(b'\r', text).is_some()
}

// Whether a line feed ends each line of a text, and nothing else does.
fn ends_with_feeds(text: &[u8], only_feeds: bool) -> bool
    requires { IsTrue only_feeds → has_return text.now ≡ false }
    ensures { IsTrue result → joined (lines_of text.now) ≡ text.now }
{
    only_feeds && (text.is_empty() || text.ends_with(b"\n"))
}

// Where the first line feed stands. Most lines are short: the indices of a byte are looked for near
// by first.
#[inline(always)]
fn first_feed(text: &[u8]) -> Option<usize>
    ensures { IsFirstByte (is_byte line_feed) text.now result }
{
    memchr_iter(b'\n', text).next()
}

// Where the first line feed or carriage return stands.
#[inline(always)]
fn first_ending(text: &[u8]) -> Option<usize>
    ensures { IsFirstByte (is_byte2 line_feed carriage_return) text.now result }
{
    memchr2_iter(b'\n', b'\r', text).next()
}

// The length of the first line, and of what ends it. Where only line feeds end lines, they alone
// are looked for.
fn first_line(text: &[u8], only_feeds: bool) -> (usize, usize)
    requires some { 0 < length text.now }
    requires feeds { IsTrue only_feeds → has_return text.now ≡ false }
    ensures within { result.0 + result.1 ≤ length text.now }
    ensures first { let content = take result.0 text.now in
        let ending = take result.1 (drop result.0 text.now) in
        pieces_of text.now ≡ record { content = content; ending = ending }
        ∷ pieces_of (drop (result.0 + result.1) text.now) }
{
    if !only_feeds {
        return first_line_of_any(text);
    }
    match first_feed(text) {
        None => (text.len(), 0),
        Some(len) => (len, 1),
    }
}

// The same, whatever ends the lines. It stands apart, so that the way of lines that end at line
// feeds is short.
#[inline(never)]
fn first_line_of_any(text: &[u8]) -> (usize, usize)
    requires { 0 < length text.now }
    ensures within { result.0 + result.1 ≤ length text.now }
    ensures first { let content = take result.0 text.now in
        let ending = take result.1 (drop result.0 text.now) in
        pieces_of text.now ≡ record { content = content; ending = ending }
        ∷ pieces_of (drop (result.0 + result.1) text.now) }
{
    match first_ending(text) {
        None => (text.len(), 0),
        Some(len) => (len, ending_len(&text[len..])),
    }
}

// The length of the ending that a text begins with.
fn ending_len(rest: &[u8]) -> usize
    requires { 0 < length rest.now }
    ensures value { result ≡ ending_length rest.now }
    ensures within { result ≤ length rest.now }
{
    if rest.starts_with(b"\r\n") { 2 } else { 1 }
}
