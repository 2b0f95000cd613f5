// The words of a script line, and what they ask for.
ghost use Rattle.std.specs.Prelude.{◌≡◌, ◌<◌, ◌≤◌, ◌∷◌, [], length, true, IfOk, OnErr};
ghost use Rattle.abc_fields.specs.Words.{words_of};
ghost use Rattle.tune_scripts.specs.Limits.{longest_line};
ghost use Rattle.tune_scripts.specs.ScriptLines.{meaning_of, meaning_of_line, meaning_of_find};
ghost use Rattle.tune_scripts.specs.ScriptLines.{meaning_of_number, renumber_of, number_of};
ghost use Rattle.tune_scripts.specs.ScriptLines.{command_of, query_kind, query_of, word_of};
ghost use Rattle.tune_scripts.specs.ScriptLines.{rest_of};
ghost use Rattle.tune_scripts.specs.ScriptLines.{line_holds_text};

use abc_fields::{ByteText, trim_blanks};
use memchr::memchr2;
use std::alloc::{AllocError, Global};
use tune_queries::{Query, QueryText};
use tune_store::Command;

/// How many bytes a line of a script has at most before its line feed, or the input's end (this
/// archive's script language).
pub const LONGEST_LINE: usize = 4_096;

/// What a book is for that follows a line.
#[derive(Clone, Copy, Debug, PartialEq, Eq)]
pub(crate) enum BookUse {
    Import,
    Replace { number: u32, revision: u32 },
}

impl BookUse {
    // The command over this book.
    pub(crate) fn command(self, book: ByteText) -> Command
        ensures { result ≡ command_of self book }
    {
        match self {
            BookUse::Import => Command::Import(book),
            BookUse::Replace { number, revision } => Command::Replace {
                number,
                revision,
                book,
            },
        }
    }
}

/// What a query is for.
#[derive(Clone, Copy, Debug, PartialEq, Eq)]
pub(crate) enum QueryKind {
    Title,
    Rhythm,
    Key,
    Notes,
}

impl QueryKind {
    // The kind that a word names.
    fn named(word: &[u8]) -> Option<QueryKind>
        ensures { result ≡ query_kind word.now }
    {
        if word == b"title".as_slice() {
            Some(QueryKind::Title)
        } else if word == b"rhythm".as_slice() {
            Some(QueryKind::Rhythm)
        } else if word == b"key".as_slice() {
            Some(QueryKind::Key)
        } else if word == b"notes".as_slice() {
            Some(QueryKind::Notes)
        } else {
            None
        }
    }

    // The query of this text.
    fn query(self, text: QueryText) -> Query
        ensures { result ≡ query_of self text }
    {
        match self {
            QueryKind::Title => Query::Title(text),
            QueryKind::Rhythm => Query::Rhythm(text),
            QueryKind::Key => Query::Key(text),
            QueryKind::Notes => Query::Notes(text),
        }
    }
}

/// What a script line asks for.
#[derive(Debug, Drop)]
pub(crate) enum ScriptLine {
    /// It has no word.
    Blank,
    /// It is no command.
    Bad,
    /// A command that the line holds whole.
    Whole(Command),
    /// A command over a book of this many bytes, which follows.
    Book(BookUse, u32),
}

// What a line asks for. The error is out of memory, and comes to a command alone that holds a text.
pub(crate) fn meaning(alloc: Global, line: &[u8]) -> Result<ScriptLine, AllocError>
    requires { length line.now ≤ longest_line }
    ensures ok { IfOk result (λ meaning. meaning ≡ meaning_of_line line.now) }
    ensures err { OnErr result (line_holds_text (meaning_of_line line.now) ≡ true) }
{
    let (name, rest) = split_word(line);
    if name == b"find".as_slice() {
        return find(alloc, rest);
    }
    if name.is_empty() {
        return Ok(ScriptLine::Blank);
    }
    if rest.is_empty() {
        return Ok(one_word(name));
    }
    let (first, rest) = split_word(rest);
    if rest.is_empty() {
        return two_words(alloc, name, first);
    }
    let (second, rest) = split_word(rest);
    if rest.is_empty() {
        return three_words(alloc, name, first, second);
    }
    let (third, rest) = split_word(rest);
    if rest.is_empty() {
        return Ok(four_words(name, first, second, third));
    }
    Ok(ScriptLine::Bad)
}

// The first word of a line, and the line after it, without blanks at its ends.
fn split_word(line: &[u8]) -> (&[u8], &[u8])
    ensures word { result.0.now ≡ word_of line.now }
    ensures rest { result.1.now ≡ rest_of line.now }
    ensures size { length result.1.now ≤ length line.now }
    ensures none { length result.0.now ≡ 0 → words_of line.now ≡ [] }
    ensures some { 0 < length result.0.now
        → words_of line.now ≡ result.0.now ∷ words_of result.1.now }
    ensures more { 0 < length result.1.now → 0 < length (word_of result.1.now) }
{
    let text = trim_blanks(line);
    match memchr2(b' ', b'\t', text) {
        Some(end) => {
            let (word, rest) = text.split_at(end);
            (word, trim_blanks(rest))
        }
        None => (text, &[]),
    }
}

// What a line asks for that begins with `find`, by what follows.
fn find(alloc: Global, rest: &[u8]) -> Result<ScriptLine, AllocError>
    requires { length rest.now ≤ longest_line }
    ensures ok { IfOk result (λ meaning. meaning ≡ meaning_of_find rest.now) }
    ensures err { OnErr result (line_holds_text (meaning_of_find rest.now) ≡ true) }
{
    let (word, text) = split_word(rest);
    let Some(kind) = QueryKind::named(word) else {
        return Ok(ScriptLine::Bad);
    };
    let text = ByteText::copy_of(alloc, text)?;
    match QueryText::new(text) {
        Some(text) => Ok(ScriptLine::Whole(Command::Find(kind.query(text)))),
        None => Ok(ScriptLine::Bad),
    }
}

fn one_word(name: &[u8]) -> ScriptLine
    ensures { result ≡ meaning_of (name.now ∷ []) }
{
    if name == b"export".as_slice() {
        ScriptLine::Whole(Command::ExportAll)
    } else if name == b"titles".as_slice() {
        ScriptLine::Whole(Command::Titles)
    } else if name == b"sets".as_slice() {
        ScriptLine::Whole(Command::Sets)
    } else if name == b"upgrade".as_slice() {
        ScriptLine::Whole(Command::Upgrade)
    } else {
        ScriptLine::Bad
    }
}

fn two_words(alloc: Global, name: &[u8], word: &[u8]) -> Result<ScriptLine, AllocError>
    ensures ok { IfOk result (λ meaning. meaning ≡ meaning_of (name.now ∷ word.now ∷ [])) }
    ensures err { OnErr result (line_holds_text (meaning_of (name.now ∷ word.now ∷ [])) ≡ true) }
{
    let command = if name == b"set-new".as_slice() {
        Command::SetNew(ByteText::copy_of(alloc, word)?)
    } else if name == b"set-drop".as_slice() {
        Command::SetDrop(ByteText::copy_of(alloc, word)?)
    } else if name == b"set-show".as_slice() {
        Command::SetShow(ByteText::copy_of(alloc, word)?)
    } else if name == b"export-set".as_slice() {
        Command::ExportSet(ByteText::copy_of(alloc, word)?)
    } else {
        return Ok(word_and_number(name, word));
    };
    Ok(ScriptLine::Whole(command))
}

fn word_and_number(name: &[u8], word: &[u8]) -> ScriptLine
    ensures { result ≡ meaning_of_number name.now (number_of word.now) }
{
    let Some(number) = number(word) else {
        return ScriptLine::Bad;
    };
    if name == b"import".as_slice() {
        ScriptLine::Book(BookUse::Import, number)
    } else if name == b"show".as_slice() {
        ScriptLine::Whole(Command::Show(number))
    } else if name == b"delete".as_slice() {
        ScriptLine::Whole(Command::Delete(number))
    } else {
        ScriptLine::Bad
    }
}

fn three_words(
    alloc: Global,
    name: &[u8],
    first: &[u8],
    second: &[u8],
) -> Result<ScriptLine, AllocError>
    ensures ok { IfOk result (λ meaning.
        meaning ≡ meaning_of (name.now ∷ first.now ∷ second.now ∷ [])) }
    ensures err { OnErr result
        (line_holds_text (meaning_of (name.now ∷ first.now ∷ second.now ∷ [])) ≡ true) }
{
    if name == b"renumber".as_slice() {
        return Ok(renumber(first, second));
    }
    let Some(number) = number(second) else {
        return Ok(ScriptLine::Bad);
    };
    let command = if name == b"set-add".as_slice() {
        Command::SetAdd {
            name: ByteText::copy_of(alloc, first)?,
            number,
        }
    } else if name == b"set-cut".as_slice() {
        Command::SetCut {
            name: ByteText::copy_of(alloc, first)?,
            place: number,
        }
    } else {
        return Ok(ScriptLine::Bad);
    };
    Ok(ScriptLine::Whole(command))
}

fn renumber(number_word: &[u8], to: &[u8]) -> ScriptLine
    ensures { result ≡ renumber_of (number_of number_word.now) (number_of to.now) }
{
    match (number(number_word), number(to)) {
        (Some(number), Some(to)) => ScriptLine::Whole(Command::Renumber { number, to }),
        _ => ScriptLine::Bad,
    }
}

fn four_words(name: &[u8], number_word: &[u8], revision: &[u8], length: &[u8]) -> ScriptLine
    ensures { result ≡ meaning_of (name.now ∷ number_word.now ∷ revision.now ∷ length.now ∷ []) }
{
    if name != b"replace".as_slice() {
        return ScriptLine::Bad;
    }
    match (number(number_word), number(revision), number(length)) {
        (Some(number), Some(revision), Some(length)) => {
            ScriptLine::Book(BookUse::Replace { number, revision }, length)
        }
        _ => ScriptLine::Bad,
    }
}

const MOST_DIGITS: usize = 9;

// A number of at most `MOST_DIGITS` digits.
fn number(word: &[u8]) -> Option<u32>
    ensures { result ≡ number_of word.now }
{
    if word.is_empty() || word.len() > MOST_DIGITS {
        return None;
    }
    let mut value = 0;
    for digit in word {
        if !digit.is_ascii_digit() {
            return None;
        }
        value = value * 10 + u32::from(*digit - b'0');
    }
    Some(value)
}
