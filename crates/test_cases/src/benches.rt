// What calls are made on, and how their answers are written.
use crate::answer::Answer;
use crate::words::Words;
use std::io;

/// How a file writes the answers that are wanted.
#[derive(Clone, Copy)]
pub struct Form {
    /// What stands between a call and its answer.
    pub separator: &'static str,
    /// The answer that is wanted where none is written.
    pub unwritten: &'static str,
    /// Whether [`try_files`](crate::try_files) counts the cases of each file for itself.
    pub counts_each_file: bool,
}

/// What the calls of a case are made on.
pub trait Bench {
    /// Begins a case, with nothing in hand that the one before had. What is given stands behind the
    /// name of the case.
    ///
    /// # Errors
    ///
    /// Where the bench cannot be made ready: the program ends.
    fn begin(&mut self, given: &str) -> io::Result<()>;

    /// Makes the call of this name, and adds what it answers.
    ///
    /// # Errors
    ///
    /// Where there is no such call, or it cannot be made: the program ends.
    fn call(&mut self, name: &str, words: Words<'_>, answer: &mut Answer) -> io::Result<()>;

    /// The number that a word of a range says, if it does.
    fn number(&self, word: &str) -> Option<u64> {
        word.parse().ok()
    }

    /// Whether an answer is what is written.
    ///
    /// # Errors
    ///
    /// Where what is written says nothing: the program ends.
    fn is_wanted(&self, answer: &Answer, written: &str) -> io::Result<bool> {
        Ok(answer.is(written))
    }
}
