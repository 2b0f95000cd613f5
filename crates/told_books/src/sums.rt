// How many bytes of a file header a tune carries.
ghost use Rattle.std.specs.Prelude.{◌≡◌, ◌<◌, ◌≤◌, ◌+◌, ◌^◌, ℕ, List, [], length, IfOk, OnOk};
ghost use Rattle.std.specs.Prelude.{IfSome, slice_index_or, if◌then◌else◌, Bool, nat_le};
ghost use Rattle.std.specs.List.{list_all};
ghost use Rattle.abc_fields.specs.Tunes.{joined};
ghost use Rattle.abc_fields.specs.FileHeaders.{carries, carried, has_letter, first_block};
ghost use Rattle.abc_fields.specs.FileHeaders.{is_header_line, file_header};
ghost use Rattle.abc_fields.specs.Inside.LinesLeft.{contents_of};
ghost use Rattle.told_books.specs.Inside.LetterTables.{IsLetterTableOf};
ghost use Rattle.told_books.specs.Inside.Sums.{sum_carried_by, sum_of_rules, AreHeaderSums};

use crate::line_rules::{rule_below, rule_of};
use crate::tune_letters::Letters;
use abc_fields::{CarryRule, Lines, is_all_blank};
use std::alloc::{AllocError, Global};

// How many bytes the lines of a rule have, each with its line feed.
#[derive(Clone, Copy)]
pub(crate) struct RuleSum {
    rule: CarryRule,
    length: usize,
}

// Adds this many bytes to the sum of a rule.
fn add_sum(sums: &mut Vec<RuleSum>, rule: CarryRule, length: usize) -> Result<(), AllocError>
    requires { sum_of_rules sums.old.items + length < 2 ^ 64 }
    ensures each { OnOk result ((owns : ℕ → Bool) → sum_carried_by owns sums.new.items
        ≡ sum_carried_by owns sums.old.items + (if carries owns rule then length else 0)) }
    ensures all { OnOk result (sum_of_rules sums.new.items ≡ sum_of_rules sums.old.items + length) }
{
    match place_of(sums, rule) {
        Some(place) => {
            let sum = &mut sums[place];
            sum.length += length;
        }
        None => sums.push(RuleSum { rule, length })?,
    }
    Ok(())
}

// The place of the sum of a rule, if there is one.
fn place_of(sums: &[RuleSum], rule: CarryRule) -> Option<usize>
    ensures { IfSome result (λ place. (place < length sums.now)
        × ((d : RuleSum) → (slice_index_or sums.now place d).rule ≡ rule)) }
{
    sums.iter().position(|sum| sum.rule == rule)
}

// The sums of the first block of lines.
fn sums_of_block(alloc: Global, lines: Lines) -> Result<Vec<RuleSum>, AllocError>
    requires { length (joined (contents_of lines)) < 2 ^ 64 }
    ensures { IfOk result
        (λ sums. AreHeaderSums sums.items (first_block (contents_of lines.entry))) }
{
    let mut sums = Vec::new(alloc);
    let mut above = CarryRule::Never;
    let mut begun = false;
    for line in lines {
        if is_all_blank(line.text) {
            if begun {
                return Ok(sums);
            }
        } else {
            add_sum(&mut sums, rule_of(above, line.text), line.text.len() + 1)?;
            above = rule_below(above, line.text);
            begun = true;
        }
    }
    Ok(sums)
}

// The sums of the file header of lines, where their first block is one or is not.
pub(crate) fn sums_of(alloc: Global, lines: Lines, header: bool) -> Result<Vec<RuleSum>, AllocError>
    requires room { length (joined (contents_of lines)) < 2 ^ 64 }
    requires header { header ≡ list_all is_header_line (first_block (contents_of lines)) }
    ensures { IfOk result
        (λ sums. AreHeaderSums sums.items (file_header (contents_of lines.entry))) }
{
    if header {
        sums_of_block(alloc, lines)
    } else {
        Ok(Vec::new(alloc))
    }
}

// Whether the lines fit in this many bytes that a tune with these letters carries.
pub(crate) fn fit(sums: &[RuleSum], letters: &Letters, room: usize) -> bool
    ensures { (own : List (List ℕ)) → IsLetterTableOf letters.now.table own
        → result ≡ nat_le (sum_carried_by (has_letter own) sums.now) room }
{
    let mut left = room;
    for sum in sums {
        if letters.carry(sum.rule) {
            if sum.length > left {
                return false;
            }
            left -= sum.length;
        }
    }
    true
}
