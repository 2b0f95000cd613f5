// Standard output.
ghost use Rattle.std.specs.Prelude.{◌≡◌, true, IfOk, OnOk};
ghost use Rattle.std.specs.Io.KnownBytes.{Appends};
ghost use Rattle.tune_scripts.specs.Streams.{IsWrite, streams_in};
ghost use Rattle.tune_scripts.specs.Replies.{line_of};
ghost use Rattle.desk_scenes.specs.Printing.{Prints, PrintsOrNot};

use crate::reasons::{DONE, REFUSED, say};
use crate::standard_streams::StandardStreams;
use std::alloc::{AllocError, Global};
use std::io;
use std::io::Write;
use tune_archive::Counts;
use tune_scripts::Console;

/// Prints bytes, and gives the status: 0, also where the reader of a pipe went away, and 1 after
/// any other fault, which is said.
pub fn print<C: Console, E: Write>(standard: &mut StandardStreams<C, E>, bytes: &[u8]) -> u8
    ensures { Prints (streams_in C.Console standard.old.console standard.new.console) bytes.now
        result }
{
    match write_out(&mut standard.console, bytes) {
        Ok(()) => DONE,
        Err(error) => say_unprinted(&mut standard.errors, &error),
    }
}

fn write_out<C: Console>(console: &mut C, bytes: &[u8]) -> io::Result<()>
    ensures bytes { OnOk result
        (Appends (C.output console.old).bytes (C.output console.new).bytes bytes.now) }
    ensures flushed { OnOk result ((C.output console.new).flushed ≡ true) }
    ensures rest { IsWrite (streams_in C.Console console.old console.new) result }
{
    console.write(bytes)?;
    console.flush()
}

fn say_unprinted<E: Write>(errors: &mut E, error: &io::Error) -> u8 {
    if error.kind() == io::ErrorKind::BrokenPipe {
        return DONE;
    }
    say(
        errors,
        "standard output",
        "what there is to say could not be written",
    );
    REFUSED
}

/// Prints how much an archive holds, and gives the status.
pub fn print_counts<C: Console, E: Write>(
    alloc: Global,
    standard: &mut StandardStreams<C, E>,
    counts: Counts,
) -> u8
    ensures { PrintsOrNot (streams_in C.Console standard.old.console standard.new.console)
        (line_of counts.layout counts.tunes counts.sets) result }
{
    match counts_line(alloc, counts) {
        Ok(line) => print(standard, line.as_slice()),
        Err(_) => {
            say(&mut standard.errors, "check", "there is not memory enough");
            REFUSED
        }
    }
}

fn counts_line(alloc: Global, counts: Counts) -> Result<Vec<u8>, AllocError>
    ensures { IfOk result (λ line. line.items
        ≡ line_of counts.layout counts.tunes counts.sets) }
{
    let Counts {
        layout,
        tunes,
        sets,
    } = counts;
    let mut line = Vec::new(alloc);
    write!(line, "layout {layout} tunes {tunes} sets {sets}\n").map_err(|_| AllocError)?;
    Ok(line)
}
