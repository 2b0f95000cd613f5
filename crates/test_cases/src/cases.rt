// The cases of a file, and what comes of them.
use crate::answer::Answer;
use crate::benches::{Bench, Form};
use crate::tally::Tally;
use crate::words::{Words, no_data};
use std::fs::Files;
use std::process::ExitCode;
use std::{fs, io};

/// The first line of a case.
#[derive(Clone, Copy)]
struct Head<'a> {
    name: &'a str,
    // what else is given
    given: &'a str,
    first: u64,
    last: u64,
}

impl<'a> Head<'a> {
    // The head that a line is. One that does not begin with `case ` is a name.
    fn read(line: &'a str) -> Option<Head<'a>> {
        let Some(named) = line.strip_prefix("case ") else {
            return Some(Head {
                name: line,
                given: "",
                first: 0,
                last: 0,
            });
        };
        let (named, numbers) = named.split_once(" for ").unwrap_or((named, "0 to 0"));
        let (name, given) = named.split_once(' ').unwrap_or((named, ""));
        let (first, last) = numbers.split_once(" to ")?;
        Some(Head {
            name,
            given,
            first: first.parse().ok()?,
            last: last.parse().ok()?,
        })
    }
}

/// Tries the cases of files, each behind its name, and prints how many came out as written: of each
/// file, or of all, as the form has it.
///
/// # Errors
///
/// Where a file cannot be read, or a line says no call, or memory is refused.
pub fn try_files<B: Bench, R: AllocGlobal + Files + Print>(
    rt: &R,
    files: &[&str],
    form: Form,
    bench: &mut B,
) -> io::Result<ExitCode> {
    let mut total = Tally::NONE;
    for file in files {
        println!(rt; "{file}")?;
        let tally = try_file(rt, file, form, bench)?;
        if form.counts_each_file {
            tally.tell_count(rt, "cases")?;
        }
        total = total.with(tally);
    }
    if !form.counts_each_file {
        total.tell_count(rt, "cases")?;
    }
    Ok(total.exit_code())
}

/// Tries the cases of a file, and counts them.
///
/// # Errors
///
/// As [`try_files`].
pub fn try_file<B: Bench, R: AllocGlobal + Files + Print>(
    rt: &R,
    file: &str,
    form: Form,
    bench: &mut B,
) -> io::Result<Tally> {
    let text = fs::read_to_string(rt, file)?;
    let mut answer = Answer::new(rt.alloc());
    try_cases(rt, &text, form, bench, &mut answer)
}

fn try_cases<B: Bench, R: AllocGlobal + Print>(
    rt: &R,
    text: &str,
    form: Form,
    bench: &mut B,
    answer: &mut Answer,
) -> io::Result<Tally> {
    let mut tally = Tally::NONE;
    for block in text.split("\n\n") {
        try_block(rt, block, form, bench, answer, &mut tally)?;
    }
    Ok(tally)
}

// Tries the case of a block, if it has one.
fn try_block<B: Bench, R: AllocGlobal + Print>(
    rt: &R,
    block: &str,
    form: Form,
    bench: &mut B,
    answer: &mut Answer,
    tally: &mut Tally,
) -> io::Result<()> {
    let lines: Vec<&str> = block
        .lines()
        .filter(|line| !line.starts_with('#') && !line.is_empty())
        .collect(rt.alloc())?;
    try_case(rt, &lines, form, bench, answer, tally)
}

fn try_case<B: Bench, R: Print>(
    rt: &R,
    lines: &[&str],
    form: Form,
    bench: &mut B,
    answer: &mut Answer,
    tally: &mut Tally,
) -> io::Result<()> {
    let Some((head, calls)) = lines.split_first() else {
        return Ok(());
    };
    let Some(head) = Head::read(head) else {
        return Err(no_data());
    };
    let is_as_written = is_case_as_written(head, calls, form, bench, answer)?;
    tally.tell(rt, head.name, is_as_written, answer)
}

// Whether a case comes out as written for each of its numbers. If not, the answer tells why.
fn is_case_as_written<B: Bench>(
    head: Head<'_>,
    calls: &[&str],
    form: Form,
    bench: &mut B,
    answer: &mut Answer,
) -> io::Result<bool> {
    for at in head.first..head.last.saturating_add(1) {
        bench.begin(head.given)?;
        if !are_lines_as_written(calls, at, form, bench, answer)? {
            return Ok(false);
        }
    }
    Ok(true)
}

fn are_lines_as_written<B: Bench>(
    lines: &[&str],
    at: u64,
    form: Form,
    bench: &mut B,
    answer: &mut Answer,
) -> io::Result<bool> {
    for (place, line) in lines.iter().enumerate() {
        let is_as_written = match line.strip_prefix("each ") {
            Some(ranges) => {
                let repeated = indented(&*lines, place);
                are_ranges_as_written(ranges, repeated, form, bench, answer)?
            }
            None if line.starts_with("  ") => true,
            None => is_line_as_written(line, at, form, bench, answer)?,
        };
        if !is_as_written {
            return Ok(false);
        }
    }
    Ok(true)
}

// The indented lines that follow the line at a place.
fn indented<'a>(lines: &'a [&'a str], place: usize) -> &'a [&'a str] {
    let behind = lines.get(place.saturating_add(1)..).unwrap_or(&[]);
    let count = behind
        .iter()
        .take_while(|line| line.starts_with("  "))
        .count();
    behind.get(..count).unwrap_or(&[])
}

fn are_ranges_as_written<B: Bench>(
    ranges: &str,
    lines: &[&str],
    form: Form,
    bench: &mut B,
    answer: &mut Answer,
) -> io::Result<bool> {
    for range in ranges.split(' ') {
        let Some((first, end)) = read_range(range, bench) else {
            return Err(no_data());
        };
        if !is_range_as_written(first, end, lines, form, bench, answer)? {
            return Ok(false);
        }
    }
    Ok(true)
}

// The first number of a range, and the one behind its last.
fn read_range<B: Bench>(range: &str, bench: &B) -> Option<(u64, u64)> {
    match range.split_once("..") {
        Some((first, end)) => Some((bench.number(first)?, bench.number(end)?)),
        None => {
            let only = bench.number(range)?;
            Some((only, only.saturating_add(1)))
        }
    }
}

fn is_range_as_written<B: Bench>(
    first: u64,
    end: u64,
    lines: &[&str],
    form: Form,
    bench: &mut B,
    answer: &mut Answer,
) -> io::Result<bool> {
    for at in first..end {
        if !are_repeated_as_written(lines, at, form, bench, answer)? {
            return Ok(false);
        }
    }
    Ok(true)
}

fn are_repeated_as_written<B: Bench>(
    lines: &[&str],
    at: u64,
    form: Form,
    bench: &mut B,
    answer: &mut Answer,
) -> io::Result<bool> {
    for line in lines {
        if !is_line_as_written(line.trim_start(), at, form, bench, answer)? {
            return Ok(false);
        }
    }
    Ok(true)
}

// Whether the call of a line is answered as written. If not, the answer tells which call it is of.
fn is_line_as_written<B: Bench>(
    line: &str,
    at: u64,
    form: Form,
    bench: &mut B,
    answer: &mut Answer,
) -> io::Result<bool> {
    let (call, written) = split_call(line, form);
    let (name, rest) = call.split_once(' ').unwrap_or((call, ""));
    answer.clear();
    bench.call(name, Words::new(rest, at), answer)?;
    if !answer.is_whole() {
        return Err(io::ErrorKind::OutOfMemory.into());
    }
    let is_as_written = bench.is_wanted(answer, written)?;
    if !is_as_written {
        answer.tell_call(call, at);
    }
    Ok(is_as_written)
}

// The call of a line, and the answer that is wanted.
fn split_call<'a>(line: &'a str, form: Form) -> (&'a str, &'a str) {
    line.split_once(form.separator)
        .unwrap_or((line, form.unwritten))
}

/// Tries the lines of a file, each of which is a case: `NAME: CALL`, or a call that is its own name,
/// with the answer that is wanted behind it. Empty lines, and those that begin with `#`, are passed
/// over.
///
/// # Errors
///
/// As [`try_files`].
pub fn try_lines<B: Bench, R: AllocGlobal + Files + Print>(
    rt: &R,
    file: &str,
    form: Form,
    bench: &mut B,
) -> io::Result<Tally> {
    let text = fs::read_to_string(rt, file)?;
    let mut answer = Answer::new(rt.alloc());
    try_each_line(rt, &text, form, bench, &mut answer)
}

fn try_each_line<B: Bench, R: Print>(
    rt: &R,
    text: &str,
    form: Form,
    bench: &mut B,
    answer: &mut Answer,
) -> io::Result<Tally> {
    let mut tally = Tally::NONE;
    for line in text.lines() {
        if line.starts_with('#') || line.is_empty() {
            continue;
        }
        try_line(rt, line, form, bench, answer, &mut tally)?;
    }
    Ok(tally)
}

fn try_line<B: Bench, R: Print>(
    rt: &R,
    line: &str,
    form: Form,
    bench: &mut B,
    answer: &mut Answer,
    tally: &mut Tally,
) -> io::Result<()> {
    let (call, _) = split_call(line, form);
    let (name, line) = match call.split_once(": ") {
        Some((name, _)) => (name, line.get(name.len().saturating_add(2)..).unwrap_or("")),
        None => (call, line),
    };
    bench.begin("")?;
    let is_as_written = is_line_as_written(line, 0, form, bench, answer)?;
    tally.tell(rt, name, is_as_written, answer)
}

/// What stands in a block behind a word, in the first line that begins with it.
pub fn line_of<'a>(block: &'a str, word: &str) -> Option<&'a str> {
    for line in block.lines() {
        if let Some(rest) = line.strip_prefix(word) {
            return Some(rest);
        }
    }
    None
}
