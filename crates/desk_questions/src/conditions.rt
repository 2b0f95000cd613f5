// What tunes are found by.
ghost use Rattle.std.specs.Prelude.{◌≡◌, ◌∷◌, [], map, not, IfOk, MatchResult, string_bytes};
ghost use Rattle.std.specs.List.{list_all};
ghost use Rattle.abc_fields.specs.Fields.{has_bytes};
ghost use Rattle.desk_questions.specs.Conditions.{notes_query, queries_of, has_title, has_no_words};
ghost use Rattle.desk_questions.specs.Conditions.{signatures, is_query_too_long};
ghost use Rattle.desk_questions.specs.Inside.SoughtWords.{words_sought, looks_at_titles};
ghost use Rattle.desk_questions.specs.Inside.SoughtWords.{MakesQuery};
ghost use Rattle.desk_questions.specs.Inside.SoughtWords.{MakesText, AreMade, AreNotMade};

use abc_fields::ByteText;
use desk_lists::{FoldedWords, text_of};
use desk_terms::Condition;
use std::alloc::{AllocError, Global};
use tune_queries::{Query, QueryText};
use tune_store::Refusal;
use tune_titles::sort_title;

// The tonics of the fifteen signatures, from seven flats to seven sharps.
const SIGNATURES: [&[u8]; 15] = [
    b"Cb", b"Gb", b"Db", b"Ab", b"Eb", b"Bb", b"F", b"C", b"G", b"D", b"A", b"E", b"B", b"F#",
    b"C#",
];

// The bytes as the text of a query, unless they are too many.
fn text_of_query(alloc: Global, bytes: &[u8]) -> Result<QueryText, Refusal>
    ensures { MakesText bytes.now result }
{
    match QueryText::new(ByteText::copy_of(alloc, bytes)?) {
        Some(text) => Ok(text),
        None => Err(Refusal::BadQuery),
    }
}

// The query for notes in a key.
fn notes_in(alloc: Global, key: &[u8], notes: &[u8]) -> Result<Query, Refusal>
    ensures { MakesQuery (notes_query key.now notes.now) result }
{
    let mut line = Vec::from_slice(alloc, b"[K:")?;
    line.extend_from_slice(key)?;
    line.extend_from_slice(b"]")?;
    line.extend_from_slice(notes)?;
    Ok(Query::Notes(text_of_query(alloc, line.as_slice())?))
}

// The one query that this is, if it is made.
fn only(alloc: Global, query: Query) -> Result<Vec<Query>, AllocError>
    ensures { IfOk result (λ queries. queries.items ≡ query ∷ []) }
{
    let mut queries = Vec::new(alloc);
    queries.push(query)?;
    Ok(queries)
}

// The queries for notes in each of these keys.
fn notes_as_printed(alloc: Global, notes: &[u8]) -> Result<Vec<Query>, Refusal>
    ensures { let queries = map (λ key. notes_query key notes.now) signatures in
        MatchResult result (λ made. AreMade queries made.items) (AreNotMade queries) }
{
    let mut queries = Vec::new(alloc);
    for key in &SIGNATURES {
        queries.push(notes_in(alloc, key, notes)?)?;
    }
    Ok(queries)
}

// The queries of which one has to match.
pub(crate) fn queries_of(alloc: Global, condition: &Condition) -> Result<Vec<Query>, Refusal>
    ensures { MatchResult result (λ made. AreMade (queries_of condition.now) made.items)
        (AreNotMade (queries_of condition.now)) }
{
    match condition {
        Condition::Title(words) => {
            let text = text_of_query(alloc, words.as_bytes())?;
            Ok(only(alloc, Query::Title(text))?)
        }
        Condition::Within(_) => Ok(Vec::new(alloc)),
        Condition::Rhythm(rhythm) => {
            let text = text_of_query(alloc, rhythm.as_bytes())?;
            Ok(only(alloc, Query::Rhythm(text))?)
        }
        Condition::Key(key) => {
            let text = text_of_query(alloc, key.as_bytes())?;
            Ok(only(alloc, Query::Key(text))?)
        }
        Condition::Notes { notes, key: None } => notes_as_printed(alloc, notes.as_bytes()),
        Condition::Notes {
            notes,
            key: Some(key),
        } => {
            let query = notes_in(alloc, key.as_bytes(), notes.as_bytes())?;
            Ok(only(alloc, query)?)
        }
    }
}

// Whether a condition asks for words of which none has a byte.
pub(crate) fn has_no_words(condition: &Condition) -> bool
    ensures { result ≡ has_no_words condition.now }
{
    match condition {
        Condition::Within(words) => have_no_bytes(words.as_slice()),
        _ => false,
    }
}

// Whether none of these words has a byte.
fn have_no_bytes(words: &[String]) -> bool
    ensures { result ≡ list_all (λ word. not (has_bytes (string_bytes word))) words.now }
{
    for word in words {
        if !word.as_bytes().is_empty() {
            return false;
        }
    }
    true
}

// Whether titles are to be looked at, beside the queries.
pub(crate) fn looks_at_titles(condition: &Condition) -> bool
    ensures { result ≡ looks_at_titles condition.now }
{
    match condition {
        Condition::Title(_) | Condition::Within(_) => true,
        _ => false,
    }
}

// The words that are looked for in titles.
pub(crate) fn words_of(alloc: Global, condition: &Condition) -> Result<FoldedWords, AllocError>
    ensures { IfOk result (λ words. words ≡ words_sought condition.now) }
{
    match condition {
        Condition::Title(words) => {
            let words = sort_title(alloc, words.as_bytes())?;
            let words = text_of(alloc, words.as_slice())?;
            FoldedWords::of_text(alloc, words.as_str())
        }
        Condition::Within(words) => FoldedWords::of_words(alloc, words.as_slice()),
        _ => FoldedWords::of_words(alloc, &[]),
    }
}

// Whether a title, as an index shows it, has the words.
pub(crate) fn has_title(
    alloc: Global,
    condition: &Condition,
    words: &FoldedWords,
    title: &[u8],
) -> Result<bool, AllocError>
    requires { words.now ≡ words_sought condition.now }
    ensures { IfOk result (λ has. has ≡ has_title condition.now title.now) }
{
    match condition {
        Condition::Title(_) => words.begin(alloc, title),
        Condition::Within(_) => words.stand_in(alloc, title),
        _ => Ok(false),
    }
}
