// The lines of a file header by their rules.
ghost use Rattle.std.specs.Prelude.{◌≡◌, ℕ, ◌+◌, ◌<◌, ◌≤◌, ◌^◌, ◌++◌, List, [], ◌∷◌, length, take};
ghost use Rattle.std.specs.Prelude.{slice_index_or, IfOk, OnOk, MatchOption, IfNone, IfSome, true};
ghost use Rattle.abc_fields.specs.Tunes.{joined};
ghost use Rattle.abc_fields.specs.FileHeaders.{carries};
ghost use Rattle.abc_fields.specs.Inside.HeaderRows.{HeaderRow, taken_lines, in_table, rows_with};
ghost use Rattle.abc_fields.specs.Inside.Shares.{RuleLines, with_line, AreShares};
ghost use Rattle.abc_fields.specs.Inside.Shares.{run_count, run_length, lines_from, BeginAt};
ghost use Rattle.abc_fields.specs.Inside.Shares.{IsFirst, ShareBegins};

use crate::carry_rules::CarryRule;
use crate::file_header::{FileHeader, HeaderLine};
use crate::header_letters::Letters;
use crate::tune_lines::push_line;
use std::alloc::{AllocError, Global};
use std::marker::Model;

// The place of a line among those of a file header, and how many bytes it has with its line feed.
#[derive(Clone, Copy)]
pub(crate) struct Mark {
    pub(crate) place: usize,
    pub(crate) length: usize,
}

// The lines of one rule, one behind the other, each with its line feed.
#[derive(Drop)]
pub(crate) struct Share {
    rule: CarryRule,
    bytes: Vec<u8>,
    marks: Vec<Mark>,
}

impl Model for Share {
    ghost Value = { RuleLines };

    ghost view = { λ share. record {
      rule = share.rule;
      bytes = share.bytes.items;
      marks = share.marks.items;
    } };
}

impl Share {
    // No line of this rule.
    fn new(alloc: Global, rule: CarryRule) -> Share
        ensures { result ≡ record { rule = rule; bytes = []; marks = [] } }
    {
        Share {
            rule,
            bytes: Vec::new(alloc),
            marks: Vec::new(alloc),
        }
    }

    // Adds the line that stands at this place.
    fn push(&mut self, place: usize, text: &[u8]) -> Result<(), AllocError>
        ensures { OnOk result (self.new ≡ with_line self.old place text.now) }
    {
        push_line(&mut self.bytes, text)?;
        let length = text.len() + 1;
        Ok(self.marks.push(Mark { place, length })?)
    }

    fn rule(&self) -> CarryRule
        ensures { result ≡ self.now.rule }
    {
        self.rule
    }

    // All its lines, as those that are left.
    fn rest(&self) -> Rest<'_>
        ensures { result ≡ self.now }
    {
        Rest {
            rule: self.rule,
            bytes: self.bytes.as_slice(),
            marks: self.marks.as_slice(),
        }
    }
}

// The lines of a file header by their rules. A clause sees the rows of the header.
#[derive(Drop)]
pub(crate) struct Shares<'h, 'a> {
    header: &'h FileHeader<'a>,
    list: Vec<Share>,
    // How many lines stand below a line of another rule.
    changes: usize,
}

impl<'h, 'a> Model for Shares<'h, 'a> {
    ghost Value = { List HeaderRow };

    ghost view = { λ shares. shares.header.now };

    ghost invariant = { λ shares. AreShares (λ _. true) 0 shares.header.now shares.list.items };
}

impl<'h, 'a> Shares<'h, 'a> {
    pub(crate) fn of_header(
        alloc: Global,
        header: &'h FileHeader<'a>,
    ) -> Result<Shares<'h, 'a>, AllocError>
        ensures { IfOk result (λ shares. shares ≡ header.now) }
    {
        let lines = header.lines();
        let mut list = Vec::new(alloc);
        let mut changes = 0;
        let mut above = CarryRule::Never;
        for place in 0..lines.len() {
            let line = lines[place];
            add_to_share(alloc, &mut list, place, line)?;
            changes += change(above, line.rule);
            above = line.rule;
        }
        Ok(Shares {
            header,
            list,
            changes,
        })
    }

    // Writes the lines that a tune with these letters carries, in the order of the header. So that
    // a tune costs what it carries and not what the header has, they are taken from the shares,
    // unless it takes fewer steps to look at each line.
    pub(crate) fn write_for(
        &self,
        alloc: Global,
        letters: &Letters,
        out: &mut Vec<u8>,
    ) -> Result<(), AllocError>
        ensures { OnOk result (out.new.items
            ≡ out.old.items ++ joined (taken_lines (in_table letters.now.table) self.now)) }
    {
        let mut rests = self.rests_for(alloc, letters)?;
        let most_turns = self.changes.min(self.header.length_for(letters) / 3);
        if self.header.lines().len() / (rests.len() + 1) <= most_turns {
            return self.header.write_for(letters, out);
        }
        let Some(mut turn) = first_turn(&rests, rests.len()) else {
            return Ok(());
        };
        while let Some(next) = first_turn(&rests, turn.index) {
            rests[turn.index].write_before(next.place, out)?;
            turn = next;
        }
        rests[turn.index].write_all(out)?;
        Ok(())
    }

    // The lines by their rules that a tune with these letters carries.
    fn rests_for(&self, alloc: Global, letters: &Letters) -> Result<Vec<Rest<'_>>, AllocError>
        ensures { IfOk result (λ rests.
            AreShares (carries (in_table letters.now.table)) 0 self.now rests.items) }
    {
        let mut rests = Vec::new(alloc);
        for share in self.list.iter() {
            if letters.carry(share.rule()) {
                rests.push(share.rest())?;
            }
        }
        Ok(rests)
    }
}

// One where a line stands below a line of another rule.
fn change(above: CarryRule, rule: CarryRule) -> usize
    ensures { result ≤ 1 }
{
    if rule == above { 0 } else { 1 }
}

// Adds the line that stands at this place, behind all others.
fn add_to_share(
    alloc: Global,
    shares: &mut Vec<Share>,
    place: usize,
    line: HeaderLine,
) -> Result<(), AllocError>
    ensures { let row : HeaderRow = record { rule = line.entry.rule; text = line.entry.text.now } in
        OnOk result ((rows : List HeaderRow) → place ≡ length rows
        → AreShares (λ _. true) 0 rows shares.old.items
        → AreShares (λ _. true) 0 (rows ++ row ∷ []) shares.new.items) }
{
    let index = share_of(alloc, shares, line.rule)?;
    shares[index].push(place, line.text)?;
    Ok(())
}

// The index of the share of a rule, which is added where there is none.
fn share_of(alloc: Global, shares: &mut Vec<Share>, rule: CarryRule) -> Result<usize, AllocError>
    ensures found { IfOk result (λ index. (index < length shares.new.items)
        × ((none : RuleLines) → (slice_index_or shares.new.items index none).rule ≡ rule)) }
    ensures shares { OnOk result ((rows : List HeaderRow)
        → AreShares (λ _. true) 0 rows shares.old.items
        → AreShares (λ _. true) 0 rows shares.new.items) }
{
    if let Some(index) = place_of(shares, rule) {
        return Ok(index);
    }
    let index = shares.len();
    shares.push(Share::new(alloc, rule))?;
    Ok(index)
}

// The index of the share of a rule, if there is one.
fn place_of(shares: &[Share], rule: CarryRule) -> Option<usize>
    ensures { MatchOption result
        ((index : ℕ) (none : RuleLines) → index < length shares.now
        → (slice_index_or shares.now index none).rule ≡ rule → ⊥)
        (λ index. (index < length shares.now)
        × ((none : RuleLines) → (slice_index_or shares.now index none).rule ≡ rule)) }
{
    shares.iter().position(|share| share.rule() == rule)
}

// The lines of a share that are left to write.
#[derive(Drop)]
struct Rest<'a> {
    rule: CarryRule,
    bytes: &'a [u8],
    marks: &'a [Mark],
}

impl<'a> Model for Rest<'a> {
    ghost Value = { RuleLines };

    ghost view = { λ rest. record {
      rule = rest.rule;
      bytes = rest.bytes.now;
      marks = rest.marks.now;
    } };
}

impl<'a> Rest<'a> {
    // Where the first line stands.
    fn place(&self) -> Option<usize>
        ensures { BeginAt result self.now.marks }
    {
        self.marks.first().map(|mark| mark.place)
    }

    // Writes the lines that stand before a place.
    fn write_before(&mut self, place: usize, out: &mut Vec<u8>) -> Result<(), AllocError>
        requires { run_length place self.old.marks ≤ length self.old.bytes }
        ensures bytes { OnOk result (out.new.items
            ≡ out.old.items ++ take (run_length place self.old.marks) self.old.bytes) }
        ensures rest { OnOk result (self.new ≡ lines_from place self.old) }
    {
        let run = run_before(self.marks, place, self.bytes.len());
        out.extend_from_slice(&self.bytes[..run.length])?;
        self.bytes = &self.bytes[run.length..];
        self.marks = &self.marks[run.count..];
        Ok(())
    }

    // Writes all its lines.
    fn write_all(&self, out: &mut Vec<u8>) -> Result<(), AllocError>
        ensures { OnOk result (out.new.items ≡ out.old.items ++ self.now.bytes) }
    {
        out.extend_from_slice(self.bytes)
    }
}

// Lines that stand one behind the other.
#[derive(Clone, Copy)]
struct Run {
    count: usize,
    length: usize,
}

// The lines that stand before a place, which have at most so many bytes.
fn run_before(marks: &[Mark], place: usize, most: usize) -> Run
    requires { run_length place marks.now ≤ most }
    ensures count { result.count ≡ run_count place marks.now }
    ensures length { result.length ≡ run_length place marks.now }
    ensures within { result.count ≤ length marks.now }
{
    let mut count = 0;
    let mut length = 0;
    for mark in marks {
        if mark.place >= place {
            return Run { count, length };
        }
        count += 1;
        length += mark.length;
    }
    Run { count, length }
}

// Of some shares that which comes first, and where its first line stands.
#[derive(Clone, Copy)]
pub(crate) struct Turn {
    pub(crate) index: usize,
    pub(crate) place: usize,
}

// Which of the shares, but for one, has the first line.
fn first_turn(rests: &[Rest], except: usize) -> Option<Turn>
    ensures { IsFirst (length rests.now) except rests.now result }
{
    let mut found = None;
    for index in 0..rests.len() {
        if index != except {
            found = earlier(found, index, rests[index].place());
        }
    }
    found
}

// The turn that comes first: the one that was found, or that of this share.
fn earlier(found: Option<Turn>, index: usize, place: Option<usize>) -> Option<Turn>
    ensures { (except : ℕ) (shares : List RuleLines) → (index ≡ except → ⊥)
        → IsFirst index except shares found → ShareBegins index place shares
        → IsFirst (index + 1) except shares result }
{
    let Some(place) = place else {
        return found;
    };
    let Some(turn) = found else {
        return Some(Turn { index, place });
    };
    if turn.place <= place {
        found
    } else {
        Some(Turn { index, place })
    }
}
