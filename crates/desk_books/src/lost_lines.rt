// What is said of single tunes and lines of a book.
use abc_fields::TuneFault;
use chosen_books::LeftOut;
use desk_scenes::say;
use std::alloc::AllocError;
use std::io::Write;
use told_books::{DroppedLine, ToldBook};

/// Says which tunes of a book are left out, each by its place and its line, and why.
pub(crate) fn say_left_out<E: Write>(errors: &mut E, path: &str, tunes: &[LeftOut]) {
    for tune in tunes {
        let LeftOut { place, line, fault } = *tune;
        let reason = match fault {
            TuneFault::NoKey => "has no K: line",
            TuneFault::TooLong => "is too long",
        };
        let _ = write!(
            errors,
            "tunes-book: {path}:{line}: tune {place} {reason}, and is left out\n"
        );
    }
    let _ = errors.flush();
}

/// Says which lines of a book go into no tune, each by its number: all of them but for the first
/// `carried` that change how a sheet is engraved, which go into the tunes behind them.
pub(crate) fn say_lost_lines<E: Write>(
    errors: &mut E,
    path: &str,
    told: Result<ToldBook, AllocError>,
    carried: usize,
) {
    match told {
        Ok(told) => say_dropped_lines(errors, path, told.dropped.as_slice(), carried),
        Err(_) => say(
            errors,
            path,
            "there is not memory enough to tell the lines of it that go into no tune",
        ),
    }
}

/// Says which of these lines are not kept: all but for the first `carried` of those that change how
/// a sheet is engraved.
pub(crate) fn say_dropped_lines<E: Write>(
    errors: &mut E,
    path: &str,
    lines: &[DroppedLine],
    carried: usize,
) {
    let mut left = carried;
    for line in lines {
        if line.directive && left > 0 {
            left -= 1;
        } else {
            say_dropped(errors, path, line);
        }
    }
    let _ = errors.flush();
}

fn say_dropped<E: Write>(errors: &mut E, path: &str, line: &DroppedLine) {
    let number = line.number;
    let _ = if line.directive {
        write!(
            errors,
            "tunes-book: {path}:{number}: it is in no tune, and is not kept, though it changes how \
             a sheet looks: "
        )
    } else {
        write!(
            errors,
            "tunes-book: {path}:{number}: it is in no tune, and is not kept: "
        )
    };
    let _ = errors.write_all(line.text);
    let _ = errors.write_all(b"\n");
}
