// Why a script makes no archive, in words. Where these cannot be written, the status says enough.
ghost use Rattle.std.specs.Prelude.{◌≢◌};

use crate::filling::{RefusedCommand, Unfilled};
use crate::script_loads::Unloaded;
use desk_scenes::{
    BAD_WORDS, REFUSED, Unopened, desk_reason, say, say_refusal, say_unkept, say_unopened,
    say_unwritten,
};
use std::io::Write;
use tune_desk::{DeskFault, ResultFault, ResultRefusal};
use tune_scripts::RunEnd;

/// Says why a script was not read, and gives the status.
pub(crate) fn say_script_unread<E: Write>(errors: &mut E, script: &str, fault: DeskFault) -> u8
    ensures { result ≢ 0 }
{
    if script == "-" {
        say(errors, "standard input", "it could not be read to its end");
        return REFUSED;
    }
    match fault {
        DeskFault::OutOfMemory => {
            say(errors, script, desk_reason(fault));
            REFUSED
        }
        _ => {
            say(
                errors,
                script,
                "there is no such file, or it cannot be read",
            );
            BAD_WORDS
        }
    }
}

/// Says why a script was not loaded, and gives the status.
pub(crate) fn say_unloaded<E: Write>(errors: &mut E, file: &str, script: &str, why: &Unloaded) -> u8
    ensures { result ≢ 0 }
{
    match why {
        Unloaded::File(fault) => say_unmade(errors, file, fault),
        Unloaded::Unfilled(Unfilled::Archive(fault)) => {
            say_unopened(errors, file, Unopened::Archive(*fault))
        }
        Unloaded::Unfilled(Unfilled::Refused(refused)) => {
            say_refused(errors, file, script, refused);
            REFUSED
        }
        Unloaded::Unfilled(Unfilled::Ended(end)) => {
            say_ended(errors, file, script, *end);
            REFUSED
        }
        Unloaded::Unfilled(Unfilled::Untold(refusal)) => {
            say_refusal(errors, file, "load", refusal);
            REFUSED
        }
        Unloaded::Unkept(why) => {
            say_unkept(errors, file, *why);
            REFUSED
        }
    }
}

// Says why FILE was not made, or not named.
fn say_unmade<E: Write>(errors: &mut E, file: &str, fault: &ResultFault) -> u8
    ensures { result ≢ 0 }
{
    if let ResultRefusal::Standing = fault.why {
        let _ = write!(
            errors,
            "tunes-book: {file} is there; load makes a new archive, so name another FILE\n"
        );
        let _ = errors.flush();
        return REFUSED;
    }
    say_unwritten(errors, file, file, fault)
}

// Says which command was refused, and why.
fn say_refused<E: Write>(errors: &mut E, file: &str, script: &str, refused: &RefusedCommand) {
    let RefusedCommand {
        line,
        replies,
        begins,
    } = refused;
    let reply = replies.as_slice().get(*begins..).unwrap_or(b"");
    let _ = write!(
        errors,
        "tunes-book: {script}: a command of it is refused, that on line {line}: {}",
        reason_of(reply)
    );
    say_number(errors, reply);
    let _ = write!(errors, "; {file} is not made\n");
    let _ = errors.flush();
}

// What a refusal tells beside its number and name.
fn say_number<E: Write>(errors: &mut E, reply: &[u8]) {
    for (place, word) in reply
        .trim_ascii_end()
        .split(|byte| *byte == b' ')
        .enumerate()
    {
        if place > 2 {
            let _ = errors.write_all(b" ");
            let _ = errors.write_all(word);
        }
    }
}

// How a reply begins, and what it says in words; what it tells beside comes behind these.
const REASONS: [(&[u8], &str); 19] = [
    (
        b"refused 1 ",
        "there is no tune in it: no line begins with X:",
    ),
    (
        b"refused 2 ",
        "a tune of its book has no K: line, or is too long: tune",
    ),
    (b"refused 3 ", "its book has more tunes than one:"),
    (b"refused 4 ", "no tune has the number"),
    (
        b"refused 5 ",
        "the tune was replaced meanwhile, and has the revision",
    ),
    (
        b"refused 6 ",
        "the tune was replaced 9,998 times, and no more",
    ),
    (b"refused 7 ", "another tune has the number"),
    (b"refused 8 ", "the tune is in the set list"),
    (b"refused 9 ", "the archive would have too many tunes"),
    (b"refused 10 ", "the numbers to 999,999 are spent"),
    (b"refused 11 ", "there is no such set list"),
    (b"refused 12 ", "there is a set list of that name"),
    (b"refused 13 ", "the set list has 200 places, and no more"),
    (b"refused 14 ", "there are 500 set lists, and no more"),
    (b"refused 15 ", "the set list has no such place"),
    (
        b"refused 16 ",
        "a set list is named by 1 to 40 letters, digits, - and _",
    ),
    (b"refused 17 ", "a tune has a number from 1 to 999,999"),
    (b"refused 19 ", "its book has more than 4,000,000 bytes"),
    (
        b"refused 30 ",
        "the line is no command, or the script is cut",
    ),
];

fn reason_of(reply: &[u8]) -> &'static str {
    for (begins, reason) in REASONS {
        if reply.starts_with(begins) {
            return reason;
        }
    }
    match reply.starts_with(b"refused 21 ") {
        true => "there is not memory enough; end other programs, and try again",
        false => "it cannot be carried out; look at the disk, and at docs/SCRIPTS.md",
    }
}

// Says why a script was not run to its end.
fn say_ended<E: Write>(errors: &mut E, file: &str, script: &str, end: RunEnd) {
    let reason = match end {
        RunEnd::LineBound => "it has more than 1,000,000 lines",
        RunEnd::LongLine => "a line of it has more than 4,096 bytes",
        RunEnd::WriterFault | RunEnd::OutOfMemory => {
            "there is not memory enough; end other programs, and try again"
        }
        _ => "the device failed; look at the disk, and try again",
    };
    let _ = write!(
        errors,
        "tunes-book: {script}: {reason}; {file} is not made\n"
    );
    let _ = errors.flush();
}
