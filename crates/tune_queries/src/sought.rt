// Queries made ready, and the tunes that they find.
ghost use Rattle.std.specs.Prelude.{◌≡◌, ◌≤◌, ◌↔◌, ℕ, List, true, not, nat_lt, Some, IsErr, IfOk};
ghost use Rattle.abc_fields.specs.Bytes.{is_all_blank};
ghost use Rattle.abc_fields.specs.Fields.{has_bytes};
ghost use Rattle.tune_incipit.specs.Incipits.{incipit_of, query_notes};
ghost use Rattle.tune_incipit.specs.Limits.{fewest_notes, most_notes};
ghost use Rattle.tune_titles.specs.Titles.{sorting_title};
ghost use Rattle.tune_incipit.specs.Scales.{scale_of_text};
ghost use Rattle.tune_queries.specs.Queries.{matches, is_bad, finds, counting_notes};
ghost use Rattle.tune_queries.specs.Queries.{is_missing, LawOfQuery};

use crate::queries::{Query, QueryText};
use abc_fields::{TuneText, is_all_blank};
use abc_keys::{Scale, key_of};
use index_keys::Keyed;
use tune_incipit::{BadQuery, ScaleKeys, SomeSteps, finds_steps, query_steps};
use tune_titles::{RhythmKeys, TitleKeys, TitlePrefix};

/// A query that is not bad, made ready once.
#[derive(Debug, Drop)]
pub enum Sought<'a> {
    /// The sorting title of the query.
    Title(TitlePrefix<'a>),
    /// The rhythm, in any capitals.
    Rhythm(&'a [u8]),
    /// The scale.
    Key(Scale),
    /// The steps between the notes of the query.
    Notes(SomeSteps),
}

impl Sought<'_> {
    /// Whether it finds the tune of this text, by openings of `notes` notes, from 2 to 12. It reads
    /// the tune's header, or the body up to the last of these notes.
    pub fn matches(&self, notes: usize, text: &TuneText) -> bool
        requires few { fewest_notes ≤ notes }
        requires many { notes ≤ most_notes }
        ensures { result ≡ finds notes self.now text.now }
    {
        match self {
            Sought::Title(prefix) => TitleKeys::test(prefix, text),
            Sought::Rhythm(query) => RhythmKeys::test(query, text),
            Sought::Key(scale) => ScaleKeys::test(scale, text),
            Sought::Notes(front) => finds_steps(notes, front, text),
        }
    }
}

impl Query {
    /// The query, made ready to be tried on tunes by openings of `notes` notes, from 2 to 12. It
    /// finds exactly the tunes that match the query so, and it is refused exactly where the query
    /// is bad: a title of spaces and tabs alone, a rhythm without a byte, a key text that says no
    /// scale of the table, or notes of which fewer than two count (this archive's profile).
    ///
    /// The law of queries stands beside it: which tunes match, in a reader's words.
    pub fn sought(&self, notes: usize) -> Result<Sought<'_>, BadQuery>
        requires few { fewest_notes ≤ notes }
        requires many { notes ≤ most_notes }
        ensures finds { IfOk result (λ ready. (text : List ℕ)
            → finds notes ready text ≡ matches notes self.now text) }
        ensures bad { IsErr result ↔ is_bad self.now ≡ true }
        ensures law { LawOfQuery notes self.now }
    {
        match self {
            Query::Title(text) => Ok(Sought::Title(prefix_of(text.bytes())?)),
            Query::Rhythm(text) => Ok(Sought::Rhythm(rhythm_of(text.bytes())?)),
            Query::Key(text) => Ok(Sought::Key(scale_of(text.bytes())?)),
            Query::Notes(text) => Ok(Sought::Notes(steps_of(text, notes)?)),
        }
    }
}

// The title of a query, made ready, unless it is blanks alone.
fn prefix_of(text: &[u8]) -> Result<TitlePrefix<'_>, BadQuery>
    ensures ok { IfOk result (λ prefix. prefix ≡ sorting_title text.now) }
    ensures bad { IsErr result ↔ is_all_blank text.now ≡ true }
{
    if is_all_blank(text) {
        return Err(BadQuery);
    }
    Ok(TitlePrefix::of(text))
}

// The rhythm of a query, unless it is empty.
fn rhythm_of(text: &[u8]) -> Result<&[u8], BadQuery>
    ensures ok { IfOk result (λ rhythm. rhythm.now ≡ text.now) }
    ensures bad { IsErr result ↔ not (has_bytes text.now) ≡ true }
{
    if text.is_empty() {
        return Err(BadQuery);
    }
    Ok(text)
}

// The scale of a query, where its text says one.
fn scale_of(text: &[u8]) -> Result<Scale, BadQuery>
    ensures ok { IfOk result (λ scale. scale_of_text text.now ≡ Some scale) }
    ensures bad { IsErr result ↔ is_missing (scale_of_text text.now) ≡ true }
{
    match key_of(text).scale() {
        Some(scale) => Ok(scale),
        None => Err(BadQuery),
    }
}

// The steps of a query, unless too few of its notes count.
fn steps_of(text: &QueryText, notes: usize) -> Result<SomeSteps, BadQuery>
    requires few { fewest_notes ≤ notes }
    requires many { notes ≤ most_notes }
    ensures ok { IfOk result (λ front. front.steps ≡ incipit_of notes (query_notes text.now)) }
    ensures bad { IsErr result ↔ nat_lt (counting_notes text.now) fewest_notes ≡ true }
{
    query_steps(text.bytes(), notes)
}
