// Which fields the header of a tune has.
ghost use Rattle.std.specs.Prelude.{◌≡◌, ℕ, ◌<◌, [], ◌∷◌, ◌||◌, codes};
ghost use Rattle.abc_fields.specs.Bytes.{begins_with};
ghost use Rattle.abc_fields.specs.Inside.LinesLeft.{contents_of};
ghost use Rattle.abc_fields.specs.Fields.{header_of};
ghost use Rattle.abc_fields.specs.Tunes.{tune_run};
ghost use Rattle.abc_fields.specs.FileHeaders.{carries};
ghost use Rattle.abc_fields.specs.Inside.HeaderRows.{in_table, IsTableOf};

use crate::carry_rules::CarryRule;
use crate::line_kinds::is_key_line;
use crate::lines::Lines;
use crate::tune_lines::ends_tune;

// The letters of the fields of a header: a table with a place for each byte.
#[derive(Clone, Copy, PartialEq, Eq)]
pub(crate) struct Letters {
    pub(crate) table: [bool; 256],
}

impl Letters {
    // No letter.
    pub(crate) fn none() -> Letters
        ensures { IsTableOf result.table [] }
    {
        Letters {
            table: [false; 256],
        }
    }

    // Those of the header of a tune, of which these are the lines, with what stands behind it.
    pub(crate) fn of_tune(lines: Lines) -> Letters
        ensures { IsTableOf result.table (header_of (tune_run (contents_of lines.entry))) }
    {
        let mut letters = Letters::none();
        for line in lines {
            if ends_tune(line.text) {
                return letters;
            }
            letters.take_line(line.text);
            if is_key_line(line.text) {
                return letters;
            }
        }
        letters
    }

    // Takes the next line of the header.
    fn take_line(&mut self, line: &[u8])
        ensures { (letter : ℕ) → letter < 256 → in_table self.new.table letter
            ≡ (begins_with line.now (letter ∷ codes ":") || in_table self.old.table letter) }
    {
        if let [letter, b':', ..] = line {
            self.table[usize::from(*letter)] = true;
        }
    }

    // Whether a tune with these letters carries a line of this rule.
    pub(crate) fn carry(&self, rule: CarryRule) -> bool
        ensures { result ≡ carries (in_table self.now.table) rule }
    {
        match rule {
            CarryRule::Never => false,
            CarryRule::Always => true,
            CarryRule::Unless(letter) => !self.table[usize::from(letter)],
        }
    }
}
