// Which fields the headers of tunes have, and so which lines of a file header some tune carries.
ghost use Rattle.std.specs.Prelude.{◌≡◌, ℕ, ◌<◌, List, [], ◌∷◌, ◌||◌, not, codes};
ghost use Rattle.abc_fields.specs.Bytes.{begins_with};
ghost use Rattle.abc_fields.specs.Fields.{header_of};
ghost use Rattle.abc_fields.specs.Tunes.{tune_run, tune_runs};
ghost use Rattle.abc_fields.specs.FileHeaders.{carries, has_letter};
ghost use Rattle.abc_fields.specs.Inside.LinesLeft.{contents_of};
ghost use Rattle.told_books.specs.Fates.{some_carries};
ghost use Rattle.told_books.specs.Inside.LetterTables.{letter_in_table, IsLetterTableOf};
ghost use Rattle.told_books.specs.Inside.LetterTables.{TellsCarried};

use crate::line_rules::{ends_tune, starts_tune};
use abc_fields::{CarryRule, Lines, is_key_line};

// The letters of the fields of a header: a table with a place for each byte.
#[derive(Clone, Copy)]
pub(crate) struct Letters {
    table: [bool; 256],
}

impl Letters {
    // No letter.
    fn none() -> Letters
        ensures { IsLetterTableOf result.table [] }
    {
        Letters {
            table: [false; 256],
        }
    }

    // Those of the header of a tune, of which these are the lines, with what stands behind it.
    pub(crate) fn of_tune(lines: Lines) -> Letters
        ensures { IsLetterTableOf result.table (header_of (tune_run (contents_of lines.entry))) }
    {
        let mut letters = Letters::none();
        for line in lines {
            if ends_tune(line.text) {
                return letters;
            }
            letters.take_line(line.text);
            if is_key_line(line.text) {
                return letters;
            }
        }
        letters
    }

    // Takes the next line of the header.
    fn take_line(&mut self, line: &[u8])
        ensures { (letter : ℕ) → letter < 256 → letter_in_table self.new.table letter
            ≡ (begins_with line.now (letter ∷ codes ":") || letter_in_table self.old.table letter) }
    {
        if let [letter, b':', ..] = line {
            self.table[usize::from(*letter)] = true;
        }
    }

    // Whether a tune with these letters carries a line of this rule.
    pub(crate) fn carry(&self, rule: CarryRule) -> bool
        ensures { (own : List (List ℕ)) → IsLetterTableOf self.now.table own
            → result ≡ carries (has_letter own) rule }
    {
        match rule {
            CarryRule::Never => false,
            CarryRule::Always => true,
            CarryRule::Unless(letter) => !self.table[usize::from(letter)],
        }
    }
}

// Which lines of a file header some tune of a book carries.
#[derive(Clone, Copy)]
pub(crate) struct SomeCarry {
    // Those that each tune carries: there is a tune.
    always: bool,
    // For each letter those that a tune without it carries: there is such a tune.
    unless: [bool; 256],
}

impl SomeCarry {
    // No tune.
    fn none() -> SomeCarry
        ensures { TellsCarried result [] }
    {
        SomeCarry {
            always: false,
            unless: [false; 256],
        }
    }

    // The tunes of these lines.
    pub(crate) fn of_lines(mut lines: Lines) -> SomeCarry
        ensures { TellsCarried result (tune_runs (contents_of lines.entry)) }
    {
        let mut carry = SomeCarry::none();
        while let Some(line) = lines.next() {
            if starts_tune(line.text) {
                carry.always = true;
                add_lacking(&mut carry.unless, &Letters::of_tune(lines.again()));
            }
        }
        carry
    }

    // Whether some tune carries a line of this rule.
    pub(crate) fn carry(&self, rule: CarryRule) -> bool
        ensures { (runs : List (List (List ℕ))) → TellsCarried self.now runs
            → result ≡ some_carries runs rule }
    {
        match rule {
            CarryRule::Never => false,
            CarryRule::Always => self.always,
            CarryRule::Unless(letter) => self.unless[usize::from(letter)],
        }
    }
}

// Adds the letters that a tune does not have.
fn add_lacking(unless: &mut [bool; 256], letters: &Letters)
    ensures { (letter : ℕ) → letter < 256 → letter_in_table unless.new letter
        ≡ (not (letter_in_table letters.now.table letter) || letter_in_table unless.old letter) }
{
    for (i, has) in letters.table.iter().enumerate() {
        if !*has {
            unless[i] = true;
        }
    }
}
