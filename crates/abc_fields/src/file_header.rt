// The file header of a book.
ghost use Rattle.std.specs.Prelude.{◌≡◌, ◌<◌, ◌≤◌, ◌+◌, ◌++◌, ℕ, List, [], ◌∷◌, length, IfOk};
ghost use Rattle.std.specs.Prelude.{OnOk, IfSome, slice_index_or, if◌then◌else◌, Bool, IsTrue};
ghost use Rattle.std.specs.Prelude.{◌↔◌};
ghost use Rattle.abc_fields.specs.Bytes.{line_feed};
ghost use Rattle.abc_fields.specs.Limits.{longest_book};
ghost use Rattle.abc_fields.specs.Inside.LinesLeft.{contents_of};
ghost use Rattle.abc_fields.specs.Tunes.{joined};
ghost use Rattle.abc_fields.specs.FileHeaders.{carries};
ghost use Rattle.abc_fields.specs.Inside.HeaderRows.{HeaderRow, row_list, rows_with, header_rows};
ghost use Rattle.abc_fields.specs.Inside.HeaderRows.{taken_lines};
ghost use Rattle.abc_fields.specs.Inside.HeaderRows.{in_table, AreByteRows, AreSums, sum_carried};
ghost use Rattle.abc_fields.specs.Inside.HeaderRows.{sum_all, IsByteRule};

use crate::carry_rules::{CarryRule, is_header_line, rule_below, rule_of};
use crate::header_letters::Letters;
use crate::lines::Lines;
use crate::tune_lines::push_line;
use crate::values::is_all_blank;
use std::alloc::{AllocError, Global};
use std::marker::Model;

// A line of a file header that some tune carries, and which tunes carry it.
#[derive(Clone, Copy)]
pub(crate) struct HeaderLine<'a> {
    pub(crate) rule: CarryRule,
    pub(crate) text: &'a [u8],
}

// How many bytes the lines of a rule have, each with its line feed.
#[derive(Clone, Copy)]
pub(crate) struct RuleSum {
    pub(crate) rule: CarryRule,
    pub(crate) length: usize,
}

// The lines of a file header that some tune carries, in order. Beside them stands how many bytes
// those of each rule have, so that no tune has to go through the lines to know its length.
#[derive(Drop)]
pub(crate) struct FileHeader<'a> {
    lines: Vec<HeaderLine<'a>>,
    sums: Vec<RuleSum>,
}

impl<'a> Model for FileHeader<'a> {
    ghost Value = { List HeaderRow };

    ghost view = { λ header. row_list header.lines.items };

    ghost invariant = { λ header. AreSums (row_list header.lines.items) header.sums.items };
}

impl<'a> FileHeader<'a> {
    // A file header without a line.
    fn new(alloc: Global) -> FileHeader<'a>
        ensures { result ≡ [] }
    {
        FileHeader {
            lines: Vec::new(alloc),
            sums: Vec::new(alloc),
        }
    }

    // The file header of these lines.
    pub(crate) fn of_lines(alloc: Global, lines: Lines<'a>) -> Result<FileHeader<'a>, AllocError>
        requires { length (joined (contents_of lines)) ≤ longest_book + 1 }
        ensures { IfOk result (λ header. header ≡ header_rows (contents_of lines.entry)) }
    {
        let mut found = Vec::new(alloc);
        let mut sums = Vec::new(alloc);
        let mut above = CarryRule::Never;
        let mut begun = false;
        for line in lines {
            let text = line.text;
            if is_all_blank(text) {
                if begun {
                    return Ok(FileHeader { lines: found, sums });
                }
            } else {
                if !is_header_line(text) {
                    return Ok(FileHeader::new(alloc));
                }
                add_line(&mut found, &mut sums, rule_of(above, text), text)?;
                above = rule_below(above, text);
                begun = true;
            }
        }
        Ok(FileHeader { lines: found, sums })
    }

    // Whether no tune carries a line.
    pub(crate) fn is_empty(&self) -> bool
        ensures value { IsTrue result ↔ self.now ≡ [] }
        ensures bytes { AreByteRows self.now }
    {
        self.lines.is_empty()
    }

    // How many bytes the lines have that a tune with these letters carries, with their line feeds.
    pub(crate) fn length_for(&self, letters: &Letters) -> usize
        ensures value { result
            ≡ length (joined (taken_lines (in_table letters.now.table) self.now)) }
        ensures few { result ≤ longest_book + 1 }
    {
        let mut length = 0;
        for sum in self.sums.iter() {
            if letters.carry(sum.rule) {
                length += sum.length;
            }
        }
        length
    }

    // Writes the lines that a tune with these letters carries, and looks at each line.
    pub(crate) fn write_for(&self, letters: &Letters, out: &mut Vec<u8>) -> Result<(), AllocError>
        ensures { OnOk result (out.new.items
            ≡ out.old.items ++ joined (taken_lines (in_table letters.now.table) self.now)) }
    {
        for line in self.lines.iter() {
            if letters.carry(line.rule) {
                push_line(out, line.text)?;
            }
        }
        Ok(())
    }

    // Its lines, in order.
    pub(crate) fn lines(&self) -> &[HeaderLine<'a>]
        ensures { row_list result.now ≡ self.now }
    {
        self.lines.as_slice()
    }
}

// Adds a line, unless no tune carries it.
fn add_line<'a>(
    lines: &mut Vec<HeaderLine<'a>>,
    sums: &mut Vec<RuleSum>,
    rule: CarryRule,
    text: &'a [u8],
) -> Result<(), AllocError>
    requires sums { AreSums (row_list lines.old.items) sums.old.items }
    requires room { sum_all sums.old.items + (length text.now + 1) ≤ longest_book + 1 }
    requires byte { IsByteRule rule }
    ensures rows { OnOk result (row_list lines.new.items
        ≡ rows_with (row_list lines.old.items) rule text.now) }
    ensures sums { OnOk result (AreSums (row_list lines.new.items) sums.new.items) }
    ensures room { OnOk result (sum_all sums.new.items
        ≤ sum_all sums.old.items + (length text.now + 1)) }
{
    if rule == CarryRule::Never {
        return Ok(());
    }
    lines.push(HeaderLine { rule, text })?;
    add_sum(sums, rule, text.len() + 1)?;
    Ok(())
}

// Adds this many bytes to the sum of a rule.
fn add_sum(sums: &mut Vec<RuleSum>, rule: CarryRule, length: usize) -> Result<(), AllocError>
    requires { sum_all sums.old.items + length ≤ longest_book + 1 }
    ensures each { OnOk result ((owns : ℕ → Bool) → sum_carried owns sums.new.items
        ≡ sum_carried owns sums.old.items + (if carries owns rule then length else 0)) }
    ensures all { OnOk result (sum_all sums.new.items ≡ sum_all sums.old.items + length) }
{
    match place_of(sums, rule) {
        Some(place) => {
            let sum = &mut sums[place];
            sum.length += length;
        }
        None => sums.push(RuleSum { rule, length })?,
    }
    Ok(())
}

// The place of the sum of a rule, if there is one.
fn place_of(sums: &[RuleSum], rule: CarryRule) -> Option<usize>
    ensures { IfSome result (λ place. (place < length sums.now)
        × ((d : RuleSum) → (slice_index_or sums.now place d).rule ≡ rule)) }
{
    sums.iter().position(|sum| sum.rule == rule)
}
