// The layouts of an archive, and its limits in each.
ghost use Rattle.std.specs.Prelude.{◌≡◌, ◌≤◌};
ghost use Rattle.tune_incipit.specs.Limits.{fewest_notes, most_notes};
ghost use Rattle.tune_store.specs.Limits.{layout_number, longest_text, most_tunes, notes_of};

/// The layout of an archive: by how many notes `find` tells openings apart, and how much there may
/// be in it (this archive's profile).
#[derive(Clone, Copy, Debug, PartialEq, Eq)]
pub enum Layout {
    /// Layout 1.
    One,
    /// Layout 2: openings by more notes, more tunes, and longer ones.
    Two,
}

impl Layout {
    /// Its number, 1 or 2.
    pub fn number(self) -> u32
        ensures { result ≡ layout_number self }
    {
        match self {
            Layout::One => 1,
            Layout::Two => 2,
        }
    }

    /// By how many notes openings are told apart, at most.
    pub fn notes(self) -> usize
        ensures notes { result ≡ notes_of self }
        ensures few { fewest_notes ≤ result }
        ensures many { result ≤ most_notes }
    {
        match self {
            Layout::One => 8,
            Layout::Two => 12,
        }
    }

    /// How many bytes the text of a tune has at most.
    pub fn longest_text(self) -> usize
        ensures longest { result ≡ longest_text self }
        ensures short { result ≤ 64000 }
    {
        match self {
            Layout::One => 16_000,
            Layout::Two => 64_000,
        }
    }

    /// How many tunes there are at most.
    pub fn most_tunes(self) -> usize
        ensures most { result ≡ most_tunes self }
        ensures few { result ≤ 50000 }
    {
        match self {
            Layout::One => 20_000,
            Layout::Two => 50_000,
        }
    }
}
