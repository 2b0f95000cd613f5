// Lists of steps in few bytes.
ghost use Rattle.std.specs.Prelude.{◌≡◌, ◌↔◌, ◌<◌, ◌≤◌, ◌++◌, ◌∷◌, [], length, take};
ghost use Rattle.std.specs.Prelude.{IfSome, IsTrue};
ghost use Rattle.index_keys.specs.Cuts.{cut_number};
ghost use Rattle.tune_incipit.specs.Inside.StepRows.{most_steps};
ghost use Rattle.tune_incipit.specs.ScaleAndIncipitKeys.{bytes_of_steps, step_bytes};

use crate::incipit_keys::key_of_steps;
use crate::step_lists::{MOST_STEPS, Steps};
use index_keys::IndexKey;
use std::marker::Model;

/// The steps of an incipit where each is small, in twelve bytes. A clause sees their list.
#[derive(Clone, Copy, Debug)]
pub struct SmallSteps {
    items: [i8; MOST_STEPS],
    count: u8,
}

impl Model for SmallSteps {
    ghost use Rattle.std.specs.Prelude.{◌≡◌, ◌≤◌, List, ℤ, length, take};
    ghost use Rattle.tune_incipit.specs.Inside.StepRows.{most_steps, padded_steps, IsPaddedRow};

    ghost Value = { List ℤ };

    ghost view = { λ s. take s.count s.items };

    ghost invariant = { λ s. (s.count ≤ most_steps) × IsPaddedRow s.count s.items };

    ghost inverse = { λ steps. record
        { items = padded_steps most_steps steps; count = length steps } };

    ghost use Rattle.std.proofs.Common.{sym};

    ghost inverse_ok = { λ s h i. record {
      items = sym h.1.zeros i;
      count = h.1.steps i;
    } };
}

impl SmallSteps {
    fn new() -> SmallSteps
        ensures { result ≡ [] }
    {
        SmallSteps {
            items: [0; MOST_STEPS],
            count: 0,
        }
    }

    // Puts a step after the others.
    #[inline(always)]
    fn push(&mut self, step: i8)
        requires { length self.old < most_steps }
        ensures { self.new ≡ self.old ++ step ∷ [] }
    {
        self.items[self.count as usize] = step;
        self.count += 1;
    }

    /// The steps that a key is cut from, or `None`: always where no list of steps has this key, or
    /// one of its steps is not from -128 to 127, and it may be so elsewhere.
    pub fn of_key<const W: usize>(key: &IndexKey<W>) -> Option<SmallSteps>
        ensures { IfSome result (λ steps. key.now ≡ cut_number W 0 (bytes_of_steps steps)) }
    {
        let mut steps = SmallSteps::new();
        let mut rest = key.bytes();
        for place in 0..MOST_STEPS {
            let Some(step) = first_step(rest) else {
                break;
            };
            steps.push(step);
            rest = &rest[4..];
        }
        if rest.iter().all(|byte| *byte == 0) {
            Some(steps)
        } else {
            None
        }
    }

    /// The key of these steps.
    pub fn key<const W: usize>(&self) -> IndexKey<W>
        ensures { result ≡ cut_number W 0 (bytes_of_steps self.now) }
    {
        key_of_steps(&self.wide(), 0)
    }

    // The steps, in order.
    fn as_slice(&self) -> &[i8]
        ensures steps { result.now ≡ self.now }
        ensures few { length self.now ≤ most_steps }
    {
        &self.items[..self.count as usize]
    }

    // The steps in a list that has room for wide ones.
    fn wide(&self) -> Steps
        ensures { result ≡ self.now }
    {
        let mut steps = Steps::new();
        let all = self.as_slice();
        for step in all {
            steps.push(i32::from(*step));
        }
        steps
    }

    /// Whether these are the same steps.
    #[inline(always)]
    pub fn is_same(&self, steps: &Steps) -> bool
        ensures { IsTrue result ↔ (self.now ≡ steps.now) }
    {
        self.count as usize == steps.len() && are_same(&self.items, steps.row())
    }
}

// The step that these bytes begin with, where it is small.
#[inline(always)]
fn first_step(bytes: &[u8]) -> Option<i8>
    ensures room { IfSome result (λ step. 4 ≤ length bytes.now) }
    ensures front { IfSome result (λ step. take 4 bytes.now ≡ step_bytes step) }
{
    if bytes.len() < 4 {
        return None;
    }
    let front = [bytes[0], bytes[1], bytes[2], bytes[3]];
    let step = i64::from(u32::from_be_bytes(front)) - 2_147_483_648;
    if step < -128 || step > 127 {
        return None;
    }
    Some(step as i8)
}

// Whether two rows of steps are the same. All of them are compared, which takes less time than to
// stop at the first that differs.
#[inline(always)]
fn are_same(small: &[i8; MOST_STEPS], wide: &[i32; MOST_STEPS]) -> bool
    ensures { IsTrue result ↔ (small.now ≡ wide.now) }
{
    let mut same = true;
    for place in 0..MOST_STEPS {
        same = same & (i32::from(small[place]) == wide[place]);
    }
    same
}
