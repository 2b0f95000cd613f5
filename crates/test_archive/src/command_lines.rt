// Calls on the words of the program, its name being the first of them:
//
//     action WORD..        the action that they ask for, or the kind of the error; `Missing` where
//                          there is no subcommand
//     report WORD..        the status where they ask for none, whether standard output names
//                          `list`, and whether standard error names `tunes`
use crate::escapes::{bytes_of, is_meant};
use crate::screen::Screen;
use std::alloc::Global;
use std::io;
use test_cases::{Answer, Bench, Words, no_data};
use tune_cli::{WordsFault, action, report};

/// Nothing is kept between two calls.
#[derive(Drop)]
pub(crate) struct CommandLines {
    alloc: Global,
}

impl CommandLines {
    pub(crate) fn new(alloc: Global) -> CommandLines {
        CommandLines { alloc }
    }
}

impl Bench for CommandLines {
    fn begin(&mut self, _given: &str) -> io::Result<()> {
        Ok(())
    }

    fn call(&mut self, name: &str, words: Words<'_>, answer: &mut Answer) -> io::Result<()> {
        let words = words_of(self.alloc, words.rest())?;
        match name {
            "action" => show_action(self.alloc, &words, answer),
            "report" => return show_report(self.alloc, &words, answer),
            _ => return Err(no_data()),
        }
        Ok(())
    }

    fn is_wanted(&self, answer: &Answer, written: &str) -> io::Result<bool> {
        is_meant(self.alloc, answer, written)
    }
}

// The words of a command line.
fn words_of(alloc: Global, given: &str) -> io::Result<Vec<String>> {
    let mut words = Vec::new(alloc);
    for word in given.split(' ') {
        words.push(String::from_utf8_lossy(alloc, &bytes_of(alloc, word)?)?)?;
    }
    Ok(words)
}

// The action that these words ask for, or the kind of the error: `Missing` where there is no
// subcommand.
fn show_action(alloc: Global, words: &[String], answer: &mut Answer) {
    match action(alloc, words) {
        Ok(action) => answer.name(action),
        Err(WordsFault::Missing) => answer.say("Missing"),
        Err(WordsFault::Clap(error)) => answer.name(error.kind()),
    }
}

// The status for these words, and which of the two streams says what it has to.
fn show_report(alloc: Global, words: &[String], answer: &mut Answer) -> io::Result<()> {
    let Err(fault) = action(alloc, words) else {
        answer.say("an action");
        return Ok(());
    };
    let screen = Screen::new(alloc);
    let status = report(&screen, &fault)?;
    let (output, errors) = screen.into_texts();
    let output = output.contains("list");
    let errors = errors.contains("tunes");
    answer.show(format_args!("{status} {output} {errors}"));
    Ok(())
}
