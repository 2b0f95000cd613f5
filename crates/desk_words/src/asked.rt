// What the program is asked to do, and what is told where the words ask for nothing.

ghost use Rattle.std.specs.Prelude.{◌≡◌, [], IfOk, IfErr, IsOk, Ok, Some, map, string_bytes};
ghost use Rattle.std.specs.Prelude.{option_map};
ghost use Rattle.clap.specs.Words.{rows_of, found_of, subcommand_rows_of};
ghost use Rattle.desk_words.specs.WordAnswers.{GivesWanted, status_of_order_fault};
ghost use Rattle.desk_words.specs.Arranged.{arranged};
ghost use Rattle.desk_words.specs.JoinedValues.{joined_values};
ghost use Rattle.desk_words.specs.AskedWords.{asked_by, asked_in, asked_of, order_faults_in};
ghost use Rattle.desk_words.specs.AskedWords.{file_by};
ghost use Rattle.desk_words.specs.AskedWords.{wait_by};
ghost use Rattle.desk_words.specs.AskedWords.{order_by, OrderFaultFits};
ghost use Rattle.desk_words.specs.OrderMeanings.{meaning_by};
ghost use Rattle.desk_words.specs.Inside.Sorting.{texts_behind};

use crate::arranging::arranged;
use crate::desk_commands::command_line;
use crate::found::{number, value};
use crate::joining::joined_values;
use crate::order_meanings::order_named;
use crate::sought_conditions::SoughtKind;
use clap::error::ErrorKind;
use clap::{ArgMatches, Error};
use desk_terms::{Adding, Alteration, Question, Undoing};
use std::alloc::{AllocError, AllocFailed, Global};
use std::io;

/// The version of the program: `tunes-book --version` prints it.
pub const VERSION: &str = "0.1.0";

/// Where a result goes.
#[derive(Drop)]
pub struct Target {
    /// A path, taken as it stands; `-` is standard output.
    pub out: String,
    /// Whether a file that stands there may be written over.
    pub force: bool,
}

/// What the program is asked to do.
#[derive(Drop)]
pub enum Order {
    /// Answer a question, on standard output.
    Tell(Question),
    /// Write what answers a question to a file.
    Write {
        question: Question,
        target: Target,
    },
    /// Open the archive, and tell how much it holds.
    Check,
    /// Open a copy of an archive, and tell how much it holds.
    CheckCopy(String),
    /// Write a tune to a new file, and print its revision.
    Draft {
        number: u32,
        out: String,
    },
    /// Write standard input to a file, by the rule of all results.
    Place(Target),
    /// Tell what of books would be taken in. `-` is standard input, and a folder stands for its
    /// books.
    CheckBooks(Vec<String>),
    /// Answer a script of questions, from standard input.
    Ask,
    /// Make an empty archive.
    Make,
    /// Take in books. `-` is standard input, and a folder stands for its books.
    Add {
        books: Vec<String>,
        how: Adding,
    },
    /// Change tunes or a set list.
    Alter(Alteration),
    /// Put the tune of a book in the place of a tune, if that has this revision, where one is
    /// given.
    /// `-` is standard input.
    Replace {
        number: u32,
        revision: Option<u32>,
        book: String,
    },
    /// Take changes back, or list them.
    Undo(Undoing),
    /// Copy the archive, and keep so many copies, where a number is given.
    Backup {
        copy: String,
        keep: Option<u32>,
    },
    /// Put a copy in the place of the archive; by `force` also where that is none.
    Restore {
        copy: String,
        force: bool,
    },
    /// Make the archive by a script.
    Load(String),
    /// Bring the archive to layout 2.
    Upgrade,
}

/// The order, and the archive that it is for.
#[derive(Drop)]
pub struct Words {
    /// The path of the archive, where one was given.
    pub file: Option<String>,
    /// How many seconds to wait while another program has the archive.
    pub wait: u32,
    /// What is asked.
    pub order: Order,
}

/// Why words ask for nothing.
#[derive(Drop)]
pub enum OrderFault {
    /// The words do not parse, help or the version was asked for, or out of memory: the error tells
    /// which, and has a text to print.
    Clap(Error),
    /// They parse, and have no command that this program carries out.
    Missing,
    /// `find` has no words, and no option that says what tunes are found by.
    NothingAsked,
    /// A kind alone stands where words are asked for.
    KindAlone(SoughtKind),
    /// `--within` has no words.
    WithinAlone,
    /// `--in` is given without notes.
    KeyAlone,
    /// Both `--json` and `--csv` are given.
    TwoForms,
    /// A set list and `--tune` are both given.
    NameAndTunes,
    /// `add` has no books.
    NoBooks,
    /// Both `--new` and `--split` are given.
    NewAndSplit,
    /// `put` lacks a name or numbers.
    PutAlone,
    /// Both `--list` and `--to` are given.
    ListAndTo,
    /// `--json` or `--csv` is given without `--list`.
    FormAlone,
    /// This is no number of one to nine digits.
    NoNumber(String),
    /// This is no name of a set list.
    NoName(String),
    /// The FILE of `-f` is empty.
    EmptyFile,
    /// A path is empty.
    EmptyPath,
}

impl From<AllocError> for OrderFault {
    ghost use Rattle.desk_words.specs.WordAnswers.{IsFaultOfMemory};

    ghost from_gives = { λ _ fault. IsFaultOfMemory fault };

    fn from(e: AllocError) -> OrderFault {
        OrderFault::Clap(Error::from(e))
    }
}

impl<T: Drop> From<AllocFailed<T>> for OrderFault {
    ghost use Rattle.desk_words.specs.WordAnswers.{IsFaultOfMemory};

    ghost from_gives = { λ _ fault. IsFaultOfMemory fault };

    fn from(e: AllocFailed<T>) -> OrderFault {
        OrderFault::Clap(Error::from(AllocError::from(e)))
    }
}

// The path of the archive.
fn file(alloc: Global, word: Option<&str>) -> Result<Option<String>, OrderFault>
    ensures { GivesWanted (option_map string_bytes)
        (file_by (option_map (λ word. word.now) word.entry)) result }
{
    match word {
        None => Ok(None),
        Some(word) => {
            if word.is_empty() {
                return Err(OrderFault::EmptyFile);
            }
            let path = String::from_str(alloc, word)?;
            Ok(Some(path))
        }
    }
}

// How long to wait.
fn wait(alloc: Global, word: Option<&str>) -> Result<u32, OrderFault>
    ensures { GivesWanted (λ seconds. seconds)
        (wait_by (option_map (λ word. word.now) word.entry)) result }
{
    match word {
        None => Ok(0),
        Some(word) => number(alloc, word),
    }
}

// The order of the command.
fn order_in(alloc: Global, matches: &ArgMatches, chance: u64) -> Result<Order, OrderFault>
    ensures { GivesWanted meaning_by (order_by chance (subcommand_rows_of matches.now)) result }
{
    match matches.subcommand() {
        None => Err(OrderFault::Missing),
        Some((name, found)) => order_named(alloc, name, found, chance),
    }
}

// What is asked by what the parser found.
fn asked_in(alloc: Global, matches: &ArgMatches, chance: u64) -> Result<Words, OrderFault>
    ensures { GivesWanted asked_by
        (asked_in chance (rows_of (found_of matches.now)) (subcommand_rows_of matches.now)) result }
{
    let file = file(alloc, value(matches, "file"))?;
    let wait = wait(alloc, value(matches, "wait"))?;
    let order = order_in(alloc, matches, chance)?;
    Ok(Words { file, wait, order })
}

// What is asked by words as the parser is given them.
fn asked_of(alloc: Global, words: &[&str], chance: u64) -> Result<Words, OrderFault>
    ensures asked { IfOk result (λ asked.
        asked_of chance (texts_behind words.now) ≡ Ok (asked_by asked)) }
    ensures parsed { IfOk result (λ _. order_faults_in (texts_behind words.now) ≡ []) }
    ensures fault { IfErr result (OrderFaultFits chance (texts_behind words.now)) }
{
    match command_line(alloc)?.try_get_matches_from(words) {
        Ok(matches) => asked_in(alloc, &matches, chance),
        Err(error) => Err(OrderFault::Clap(error)),
    }
}

/// What the words of the program ask for, its name being the first of them. `chance` chooses the
/// tune of `random`.
///
/// The parser is given the words as `arranged` puts them. The error is `Clap` where they do not
/// parse then, where help or the version is asked for, and out of memory; each other error says
/// why words that parse ask for nothing.
pub fn words_of(alloc: Global, words: &[String], chance: u64) -> Result<Words, OrderFault>
    ensures asked { let given = arranged (joined_values (map string_bytes words.now)) in
        IfOk result (λ asked. asked_of chance given ≡ Ok (asked_by asked)) }
    ensures parsed { let given = arranged (joined_values (map string_bytes words.now)) in
        IfOk result (λ _. order_faults_in given ≡ []) }
    ensures fault { let given = arranged (joined_values (map string_bytes words.now)) in
        IfErr result (OrderFaultFits chance given) }
{
    let joined = joined_values(alloc, words)?;
    let arranged = arranged(alloc, joined.as_slice())?;
    asked_of(alloc, arranged.as_slice(), chance)
}

fn kind_text(kind: SoughtKind) -> &'static str {
    match kind {
        SoughtKind::Title => "title",
        SoughtKind::Rhythm => "rhythm",
        SoughtKind::Key => "key",
        SoughtKind::Notes => "notes",
    }
}

fn tell<T: Eprint>(rt: &T, text: &str) -> io::Result<()> {
    eprintln!(rt; "tunes-book: {text}")
}

// Tells it, and where the commands are listed.
fn tell_with_list<T: Eprint>(rt: &T, text: &str) -> io::Result<()> {
    eprintln!(rt; "tunes-book: {text}; `tunes-book --help` lists the commands")
}

fn tell_kind<T: Eprint>(rt: &T, kind: SoughtKind) -> io::Result<()> {
    let kind = kind_text(kind);
    eprintln!(rt;
        "tunes-book: find {kind} asks for words; for a title {kind}, say find title {kind}"
    )
}

// Tells a fault that is not the parser's.
fn say<T: Eprint>(rt: &T, fault: &OrderFault) -> io::Result<()> {
    match fault {
        OrderFault::Clap(_) => Ok(()),
        OrderFault::Missing => tell_with_list(rt, "no command is given"),
        OrderFault::NothingAsked => tell_with_list(rt, "find asks for words"),
        OrderFault::KindAlone(kind) => tell_kind(rt, *kind),
        OrderFault::WithinAlone => tell(rt, "--within asks for words"),
        OrderFault::KeyAlone => tell(rt, "--in is for notes, and none are given"),
        OrderFault::TwoForms => tell(rt, "--json and --csv are both given; say one of them"),
        OrderFault::NameAndTunes => {
            tell(rt, "a set list and --tune are both given; say one of them")
        }
        OrderFault::NoBooks => tell_with_list(rt, "add asks for books"),
        OrderFault::NewAndSplit => tell(rt, "add takes --new or --split, not both"),
        OrderFault::PutAlone => tell_with_list(rt, "put asks for a name and numbers"),
        OrderFault::ListAndTo => tell(rt, "undo takes --list or --to, not both"),
        OrderFault::FormAlone => tell(rt, "--json and --csv are for undo --list"),
        OrderFault::NoNumber(word) => eprintln!(rt; "tunes-book: '{word}' is no number"),
        OrderFault::NoName(word) => {
            eprintln!(rt; "tunes-book: '{word}' is no name of a set list")
        }
        OrderFault::EmptyFile => tell(rt, "the FILE of -f is empty"),
        OrderFault::EmptyPath => tell(rt, "a path is empty"),
    }
}

/// Prints why words ask for nothing, and gives the status: help and the version, on standard
/// output, with 0; out of memory, there too, with 1; anything else on standard error, with 2, also
/// where that cannot be written. The error is that of standard output.
pub fn report<T: Print + Eprint>(rt: &T, fault: &OrderFault) -> io::Result<u8>
    ensures status { IfOk result (λ status. status ≡ status_of_order_fault fault.now) }
    ensures bad_words { status_of_order_fault fault.now ≡ 2 → IsOk result }
{
    let OrderFault::Clap(error) = fault else {
        let _ = say(rt, fault);
        return Ok(2);
    };
    match error.kind() {
        ErrorKind::OutOfMemory => {
            println!(rt; "refused 21 OutOfMemory")?;
            Ok(1)
        }
        ErrorKind::DisplayHelp | ErrorKind::DisplayVersion => {
            error.print(rt)?;
            Ok(0)
        }
        _ => {
            let _ = error.print(rt);
            Ok(2)
        }
    }
}
