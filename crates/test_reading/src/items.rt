// The items of music lines (ABC 2.1, 3.2 and 4), as an outline of the same length: the first byte
// of an item is a letter that says its kind, and each further byte is a dot.
//
// - `outline`, a line: its outline.
// - `bytes`: the outlines of all bytes alone.
// - `rows`, some bytes: of how many lines of three of them no byte is left out.
// - `left`, a line: the outlines of what is left after each of the first six items, and before.
// - `first`, a line: its first item that is no aside, and where that begins and ends.
use crate::cases::Case;
use abc_items::{Items, Kind};
use test_cases::Answer;

pub(crate) fn answer(case: &Case, out: &mut Answer) -> Option<()> {
    let line = case.text(0);
    match case.call {
        "outline" => write_outline(line, Items::new(line), 0, out),
        "bytes" => write_bytes(out),
        "rows" => write_rows(line, out),
        "left" => write_left(line, out),
        "first" => write_first(line, out),
        _ => return None,
    }
    Some(())
}

fn initial(kind: Kind) -> char {
    match kind {
        Kind::Quoted => 'Q',
        Kind::Decoration => 'D',
        Kind::Grace => 'G',
        Kind::InlineField => 'I',
        Kind::Chord => 'C',
        Kind::Tuplet => 'T',
        Kind::Note => 'N',
        Kind::Bar => 'B',
        Kind::Other => 'O',
    }
}

// Whether each item begins where the one before it ends, its text stands there, and the last one
// ends with the line.
fn leave_no_byte_out(line: &[u8], items: Items, from: usize) -> bool {
    let mut end = from;
    for item in items {
        if item.from != end || item.to <= end || line.get(end..item.to) != Some(item.text) {
            return false;
        }
        end = item.to;
    }
    end == line.len()
}

fn write_outline(line: &[u8], items: Items, from: usize, out: &mut Answer) {
    if !leave_no_byte_out(line, items.again(), from) {
        out.say("a byte is left out: ");
    }
    for item in items {
        out.show(initial(item.kind));
        for _ in item.text.iter().skip(1) {
            out.say(".");
        }
    }
}

fn write_bytes(out: &mut Answer) {
    for byte in 0..=u8::MAX {
        let line = [byte];
        write_outline(&line, Items::new(&line), 0, out);
    }
}

fn write_rows(bytes: &[u8], out: &mut Answer) {
    let mut whole = 0_usize;
    for &first in bytes {
        for &second in bytes {
            whole = whole.saturating_add(whole_rows(first, second, bytes));
        }
    }
    out.show(whole);
}

fn whole_rows(first: u8, second: u8, bytes: &[u8]) -> usize {
    let mut whole = 0_usize;
    for &third in bytes {
        let line = [first, second, third, second, first, third, second];
        if leave_no_byte_out(&line, Items::new(&line), 0) {
            whole = whole.saturating_add(1);
        }
    }
    whole
}

fn write_left(line: &[u8], out: &mut Answer) {
    for taken in 0..7 {
        let mut items = Items::new(line);
        let mut end = 0;
        for _ in 0..taken {
            if let Some(item) = items.next() {
                end = item.to;
            }
        }
        write_outline(line, items.again(), end, out);
        out.say(" ");
        write_outline(line, items, end, out);
        out.say("\n");
    }
}

fn write_first(line: &[u8], out: &mut Answer) {
    let mut items = Items::new(line);
    let end = match items.next_past_asides() {
        Some(item) => {
            out.show(format_args!("{} {} {}", initial(item.kind), item.from, item.to));
            item.to
        }
        None => {
            out.say("none");
            line.len()
        }
    };
    let next = match items.next() {
        Some(next) => next.from,
        None => line.len(),
    };
    if next != end {
        out.show(format_args!(", and then {next}"));
    }
}
