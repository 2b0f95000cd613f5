// Questions.
use crate::condition::Condition;
use crate::form::Form;

/// What is asked of a store of tunes.
#[derive(Drop)]
pub enum Question {
    /// The tunes that all of these conditions give, by number, each once, under its first title.
    Find {
        conditions: Vec<Condition>,
        form: Form,
    },
    /// How many tunes all of these give; of no condition, how many tunes there are.
    Count(Vec<Condition>),
    /// One of the tunes that all of these give, whose place is the remainder of `chance` by their
    /// count; none where they give none.
    Random {
        conditions: Vec<Condition>,
        chance: u64,
        form: Form,
    },
    /// All titles of all tunes, in the order of an index.
    Titles(Form),
    /// The set lists by name, and how many places each has.
    Sets(Form),
    /// The tunes at the places of the set list of this name.
    Set {
        name: String,
        form: Form,
    },
    /// The tunes of these numbers, an empty line between.
    Show(Vec<u32>),
    /// The written book of all tunes.
    ExportAll,
    /// The written set of this name.
    ExportSet(String),
    /// The written book of the tunes of these numbers, in this order.
    ExportTunes(Vec<u32>),
    /// The tunes that are there twice: each under the first tune before it that has the same text,
    /// or else the same opening of twelve notes and the same title.
    Twins(Form),
    /// The script that makes the tunes, with their numbers, and the set lists anew.
    Dump,
}
