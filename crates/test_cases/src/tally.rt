// What comes of cases, as it is printed and counted.
use crate::answer::Answer;
use std::io;
use std::process::ExitCode;

/// How many cases there were, and how many of them came out as written.
#[derive(Clone, Copy)]
pub struct Tally {
    all: u32,
    as_written: u32,
}

impl Tally {
    /// No case.
    pub const NONE: Tally = Tally {
        all: 0,
        as_written: 0,
    };

    /// With those of another.
    pub fn with(self, other: Tally) -> Tally {
        Tally {
            all: self.all.saturating_add(other.all),
            as_written: self.as_written.saturating_add(other.as_written),
        }
    }

    /// Counts a case.
    pub fn count(&mut self, is_as_written: bool) {
        self.all = self.all.saturating_add(1);
        self.as_written = self.as_written.saturating_add(u32::from(is_as_written));
    }

    /// Prints what came of a case, `NAME: as written` or else `NAME: ANSWER`, and counts it.
    ///
    /// # Errors
    ///
    /// Where it cannot be printed.
    pub fn tell<R: Print>(
        &mut self,
        rt: &R,
        name: &str,
        is_as_written: bool,
        answer: &Answer,
    ) -> io::Result<()> {
        self.count(is_as_written);
        if is_as_written {
            println!(rt; "{name}: as written")
        } else {
            println!(rt; "{name}: {answer}")
        }
    }

    /// Prints how many came out as written, of all cases, or of what else they are called.
    ///
    /// # Errors
    ///
    /// Where it cannot be printed.
    pub fn tell_count<R: Print>(self, rt: &R, cases: &str) -> io::Result<()> {
        let Tally { all, as_written } = self;
        println!(rt; "{as_written} of {all} {cases} as written")
    }

    /// Whether all came out as written.
    pub fn is_as_written(self) -> bool {
        self.all == self.as_written
    }

    /// How a program ends: well where all came out as written.
    pub fn exit_code(self) -> ExitCode {
        if self.is_as_written() {
            ExitCode::SUCCESS
        } else {
            ExitCode::FAILURE
        }
    }
}
