// Courses that are stopped.
use crate::courses::Course;
use crate::files::kept_file;
use crate::openings::Way;
use crate::scripts::file_after;
use crate::stops::{stop_between, stop_making, stop_steps};
use std::fs::Files;
use std::{fs, io};

/// By this the kept file comes to hold nothing.
const EMPTIES: &[u8] = b"set-drop friday\ndelete 1\ndelete 2\n";

/// A file from which on courses begin, and the commands of it.
#[derive(Drop)]
struct Start {
    file: Vec<u8>,
    script: Vec<u8>,
}

// Stops archives, and says whether all is well.
pub(crate) fn try_stops<R: Files + Print + AllocGlobal>(rt: &R) -> io::Result<bool> {
    let commands = stop_commands(rt)?;
    let upgrades = stop_upgrades(rt)?;
    Ok(commands && upgrades)
}

// Stops archives that are made, and those that begin without a tune, and says whether all is well.
fn stop_commands<R: Files + Print + AllocGlobal>(rt: &R) -> io::Result<bool> {
    let start = emptied(rt)?;
    let making = try_making(rt, &start)?;
    let steps = stop_from(rt, "steps", "steps", &start, &Way::ONCE)?;
    let leaves = stop_from(rt, "steps on leaves", "leaves", &start, &Way::ONCE)?;
    let commands = stop_from(rt, "commands", "commands", &start, &Way::TO_THE_END)?;
    let filled = stop_from(rt, "commands, filled", "commands", &start, &Way::AGAIN)?;
    Ok(making && steps && leaves && commands && filled)
}

// The kept file, of which all went.
fn emptied<R: Files + AllocGlobal>(rt: &R) -> io::Result<Start> {
    let file = file_after(rt.alloc(), &kept_file(rt, "kept")?, EMPTIES)?;
    let mut script = fs::read(rt, "kept.script")?;
    script.extend_from_slice(EMPTIES)?;
    Ok(Start { file, script })
}

// Stops archives of layout 1 in an upgrade, and says whether all is well.
fn stop_upgrades<R: Files + Print + AllocGlobal>(rt: &R) -> io::Result<bool> {
    let start = Start {
        file: kept_file(rt, "kept")?,
        script: fs::read(rt, "kept.script")?,
    };
    let two = stop_from(rt, "upgrade of 2 tunes", "upgrade", &start, &Way::AGAIN)?;
    let start = with_many(rt, start)?;
    let many = stop_from(rt, "upgrade of 300 tunes", "upgrade", &start, &Way::APART)?;
    Ok(two && many)
}

// A file to which 300 tunes come.
fn with_many<R: Files + AllocGlobal>(rt: &R, start: Start) -> io::Result<Start> {
    let Start { file, mut script } = start;
    let more = fs::read(rt, "many.script")?;
    let file = file_after(rt.alloc(), &file, &more)?;
    script.extend_from_slice(&more)?;
    Ok(Start { file, script })
}

// Stops an archive while it is made, and says whether all is well.
fn try_making<R: Files + Print + AllocGlobal>(rt: &R, start: &Start) -> io::Result<bool> {
    let course = Course::read(rt, "steps", &start.file, &start.script)?;
    let making = stop_making(rt.alloc(), &course)?;
    say(rt, "make", making)
}

// Stops an archive at the steps of a file of data, and between them, and says whether all is well.
fn stop_from<R: Files + Print + AllocGlobal>(
    rt: &R,
    name: &str,
    steps: &str,
    start: &Start,
    way: &Way,
) -> io::Result<bool> {
    let course = Course::read(rt, steps, &start.file, &start.script)?;
    let wrong = stop_steps(rt.alloc(), &course, way)?;
    let between = stop_between(rt.alloc(), &course)?;
    say(rt, name, wrong.or(between))
}

// Prints what came of a sweep of stops: the call, or the step, at which it was not as it should be.
fn say<R: Print>(rt: &R, name: &str, wrong: Option<u64>) -> io::Result<bool> {
    match wrong {
        None => println!(rt; "{name}: each stop leaves the state before a command or after it")?,
        Some(at) => println!(rt; "{name}: what a stop at {at} leaves is not as it should be")?,
    }
    Ok(wrong.is_none())
}
