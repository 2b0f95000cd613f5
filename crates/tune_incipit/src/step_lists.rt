// Lists of steps.
ghost use Rattle.std.specs.Prelude.{◌≡◌, ◌+◌, ◌<◌, ◌≤◌, ◌↔◌, ◌++◌, ◌∷◌, [], length, take, IsTrue};
ghost use Rattle.std.specs.Prelude.{FitsSigned};
ghost use Rattle.std.specs.Int.{w8};
ghost use Rattle.std.specs.List.{AllWithin};
ghost use Rattle.tune_incipit.specs.Incipits.{differences};
ghost use Rattle.tune_incipit.specs.Limits.{most_notes};
ghost use Rattle.tune_incipit.specs.Inside.StepRows.{most_steps, padded_steps};

use crate::incipits::MOST_NOTES;
use std::marker::Model;

// How many steps there is room for: those between twelve notes.
pub(crate) const MOST_STEPS: usize = 11;

/// The steps between neighbouring notes, in semitones, up to eleven of them. A clause sees their
/// list.
#[derive(Clone, Copy, Debug, PartialEq, Eq)]
pub struct Steps {
    items: [i32; MOST_STEPS],
    count: usize,
}

impl Model for Steps {
    ghost use Rattle.std.specs.Prelude.{◌≡◌, ◌≤◌, List, ℤ, length, take};
    ghost use Rattle.tune_incipit.specs.Inside.StepRows.{most_steps, padded_steps, IsPaddedRow};

    ghost Value = { List ℤ };

    ghost view = { λ s. take s.count s.items };

    ghost invariant = { λ s. (s.count ≤ most_steps) × IsPaddedRow s.count s.items };

    ghost inverse = { λ steps. record
        { items = padded_steps most_steps steps; count = length steps } };

    ghost use Rattle.std.proofs.Common.{sym};

    ghost inverse_ok = { λ s h i. record {
      items = sym h.1.zeros i;
      count = h.1.steps i;
    } };
}

impl Steps {
    pub(crate) fn new() -> Steps
        ensures { result ≡ [] }
    {
        Steps {
            items: [0; MOST_STEPS],
            count: 0,
        }
    }

    // The steps between the first so many pitches.
    #[inline(always)]
    pub(crate) fn between(pitches: &[i8; MOST_NOTES], notes: usize) -> Steps
        requires few { notes ≤ most_notes }
        requires fit { AllWithin (FitsSigned w8) pitches.now 0 notes }
        ensures { result ≡ differences (take notes pitches.now) }
    {
        let count = notes.saturating_sub(1);
        let mut items = [0; MOST_STEPS];
        for place in 0..count {
            items[place] = i32::from(pitches[place + 1]) - i32::from(pitches[place]);
        }
        Steps { items, count }
    }

    /// The steps, in order.
    pub fn as_slice(&self) -> &[i32]
        ensures steps { result.now ≡ self.now }
        ensures few { length self.now < most_notes }
    {
        &self.items[..self.len()]
    }

    // The steps, and zeros behind them.
    pub(crate) fn row(&self) -> &[i32; MOST_STEPS]
        ensures { result.now ≡ padded_steps most_steps self.now }
    {
        &self.items
    }

    /// How many there are.
    pub fn len(&self) -> usize
        ensures { result ≡ length self.now }
    {
        self.count
    }

    /// Whether there are none.
    pub fn is_empty(&self) -> bool
        ensures { IsTrue result ↔ (length self.now ≡ 0) }
    {
        self.len() == 0
    }

    // Puts a step after the others.
    pub(crate) fn push(&mut self, step: i32)
        requires { length self.old < most_steps }
        ensures { self.new ≡ self.old ++ step ∷ [] }
    {
        self.items[self.count] = step;
        self.count += 1;
    }
}
