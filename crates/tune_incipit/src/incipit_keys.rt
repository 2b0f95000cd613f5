// Incipits as keys. But for the last lines all of it is for any width and any number of notes.
ghost use Rattle.std.specs.Prelude.{◌≡◌, ◌+◌, ◌*◌, ◌<◌, ◌≤◌, ◌++◌, length, take, IfOk};
ghost use Rattle.std.specs.Option.{option_to_list};
ghost use Rattle.index_keys.specs.Cuts.{cut_number};
ghost use Rattle.tune_incipit.specs.Incipits.{incipit_of, tune_notes, finds_steps};
ghost use Rattle.tune_incipit.specs.Limits.{fewest_notes, most_notes};
ghost use Rattle.tune_incipit.specs.ScaleAndIncipitKeys.{step_bytes, bytes_of_steps};
ghost use Rattle.tune_incipit.specs.ScaleAndIncipitKeys.{incipit_keys_of};
ghost use Rattle.tune_incipit.specs.ScaleAndIncipitKeys.{incipit_keys};

use crate::incipits::{begins, steps};
use crate::some_steps::SomeSteps;
use crate::step_lists::{MOST_STEPS, Steps};
use abc_fields::TuneText;
use index_keys::{IndexKey, Keyed};
use std::alloc::{AllocError, Global};

/// Tunes by the steps between their first eight notes that count: each step and 2^31 in four bytes,
/// the highest first, and zeros (this archive's profile). A tune without a step has no key.
pub enum EightNoteKeys {}

impl Keyed<32> for EightNoteKeys {
    ghost use Rattle.std.specs.Prelude.{[], ◌∷◌};
    ghost use Rattle.std.specs.Ordering.{int_eq};
    ghost use Rattle.std.proofs.Common.{refl};
    ghost use Rattle.std.proofs.lemmas.Bool.Decides.{Decides-int_eq};
    ghost use Rattle.index_keys.specs.Cuts.{cut_number};
    ghost use Rattle.index_keys.specs.KeyLists.{KeysRise};
    ghost use Rattle.index_keys.proofs.FoundKeys.{one_rises, begun_list_found};
    ghost use Rattle.tune_incipit.specs.Incipits.{incipit_of, tune_notes, finds_steps};
    ghost use Rattle.tune_incipit.specs.ScaleAndIncipitKeys.{bytes_of_steps, incipit_keys};
    ghost use Rattle.tune_incipit.specs.ScaleAndIncipitKeys.{step_bytes, incipit_keys_of};

    type Text = TuneText;

    type Query = SomeSteps;

    ghost keys_of = { incipit_keys 8 };

    ghost low_of = { λ query. cut_number 32 0 (bytes_of_steps query.steps) };

    ghost high_of = { λ query. cut_number 32 255 (bytes_of_steps query.steps) };

    ghost matches = { λ query text. finds_steps 8 query.steps text };

    fn keys(alloc: Global, text: &TuneText) -> Result<Vec<IndexKey<32>>, AllocError>
        ensures { IfOk result (λ keys. keys.items ≡ incipit_keys 8 text.now) }
    {
        Vec::from_slice(alloc, key_of_incipit(text).as_slice())
    }

    fn range(query: &SomeSteps) -> (IndexKey<32>, IndexKey<32>)
        ensures low { result.0 ≡ cut_number 32 0 (bytes_of_steps query.now.steps) }
        ensures high { result.1 ≡ cut_number 32 255 (bytes_of_steps query.now.steps) }
    {
        range_of_steps(query)
    }

    fn test(query: &SomeSteps, text: &TuneText) -> bool {
        finds_steps(8, query, text)
    }

    ghost rise = { λ text. elim (incipit_of 8 (tune_notes text))
        as (λ own. KeysRise 0 (incipit_keys_of 32 own)) [
          | [] ↦ tt
          | step ∷ steps ↦ one_rises (cut_number 32 0 (bytes_of_steps (step ∷ steps)))
        ] };

    ghost law = { λ query text is.
        begun_list_found int_eq Decides-int_eq step_bytes 32 (incipit_keys_of 32)
        (λ _ _. refl) (incipit_of 8 (tune_notes text)) query.steps query.some is };
}

/// Tunes by the steps between their first twelve notes that count: each step and 2^31 in four
/// bytes, the highest first, and zeros (this archive's profile). A tune without a step has no key.
pub enum TwelveNoteKeys {}

impl Keyed<48> for TwelveNoteKeys {
    ghost use Rattle.std.specs.Prelude.{[], ◌∷◌};
    ghost use Rattle.std.specs.Ordering.{int_eq};
    ghost use Rattle.std.proofs.Common.{refl};
    ghost use Rattle.std.proofs.lemmas.Bool.Decides.{Decides-int_eq};
    ghost use Rattle.index_keys.specs.Cuts.{cut_number};
    ghost use Rattle.index_keys.specs.KeyLists.{KeysRise};
    ghost use Rattle.index_keys.proofs.FoundKeys.{one_rises, begun_list_found};
    ghost use Rattle.tune_incipit.specs.Incipits.{incipit_of, tune_notes, finds_steps};
    ghost use Rattle.tune_incipit.specs.ScaleAndIncipitKeys.{bytes_of_steps, incipit_keys};
    ghost use Rattle.tune_incipit.specs.ScaleAndIncipitKeys.{step_bytes, incipit_keys_of};

    type Text = TuneText;

    type Query = SomeSteps;

    ghost keys_of = { incipit_keys 12 };

    ghost low_of = { λ query. cut_number 48 0 (bytes_of_steps query.steps) };

    ghost high_of = { λ query. cut_number 48 255 (bytes_of_steps query.steps) };

    ghost matches = { λ query text. finds_steps 12 query.steps text };

    fn keys(alloc: Global, text: &TuneText) -> Result<Vec<IndexKey<48>>, AllocError>
        ensures { IfOk result (λ keys. keys.items ≡ incipit_keys 12 text.now) }
    {
        Vec::from_slice(alloc, key_of_twelve_notes(text).as_slice())
    }

    fn range(query: &SomeSteps) -> (IndexKey<48>, IndexKey<48>)
        ensures low { result.0 ≡ cut_number 48 0 (bytes_of_steps query.now.steps) }
        ensures high { result.1 ≡ cut_number 48 255 (bytes_of_steps query.now.steps) }
    {
        range_of_steps(query)
    }

    fn test(query: &SomeSteps, text: &TuneText) -> bool {
        finds_steps(12, query, text)
    }

    ghost rise = { λ text. elim (incipit_of 12 (tune_notes text))
        as (λ own. KeysRise 0 (incipit_keys_of 48 own)) [
          | [] ↦ tt
          | step ∷ steps ↦ one_rises (cut_number 48 0 (bytes_of_steps (step ∷ steps)))
        ] };

    ghost law = { λ query text is.
        begun_list_found int_eq Decides-int_eq step_bytes 48 (incipit_keys_of 48)
        (λ _ _. refl) (incipit_of 12 (tune_notes text)) query.steps query.some is };
}

/// Whether the incipit of the tune, by its first `notes` notes that count, begins with these steps.
pub fn finds_steps(notes: usize, front: &SomeSteps, text: &TuneText) -> bool
    requires few { fewest_notes ≤ notes }
    requires many { notes ≤ most_notes }
    ensures { result ≡ finds_steps notes front.now.steps text.now }
{
    begins(&front.steps, &steps(text, notes))
}

/// The key of a tune by the steps between its first eight notes that count, where it has a step.
pub fn key_of_incipit(text: &TuneText) -> Option<IndexKey<32>>
    ensures { option_to_list result ≡ incipit_keys 8 text.now }
{
    key_of_notes(8, text)
}

/// The key of a tune by the steps between its first twelve notes that count, where it has a step.
pub fn key_of_twelve_notes(text: &TuneText) -> Option<IndexKey<48>>
    ensures { option_to_list result ≡ incipit_keys 12 text.now }
{
    key_of_notes(12, text)
}

// The key of a tune by its first `notes` notes that count, where it has a step.
#[inline(always)]
fn key_of_notes<const W: usize>(notes: usize, text: &TuneText) -> Option<IndexKey<W>>
    requires few { fewest_notes ≤ notes }
    requires many { notes ≤ most_notes }
    ensures { option_to_list result ≡ incipit_keys_of W (incipit_of notes (tune_notes text.now)) }
{
    let own = steps(text, notes);
    // Most tunes have all the notes. Where the number of steps is known, their bytes are put with
    // less work.
    if own.len() == MOST_STEPS {
        return Some(key_of_steps(&own, 0));
    }
    if own.is_empty() {
        None
    } else {
        Some(key_of_steps(&own, 0))
    }
}

// The first and the last key of the incipits that begin with these steps.
fn range_of_steps<const W: usize>(front: &SomeSteps) -> (IndexKey<W>, IndexKey<W>)
    ensures low { result.0 ≡ cut_number W 0 (bytes_of_steps front.now.steps) }
    ensures high { result.1 ≡ cut_number W 255 (bytes_of_steps front.now.steps) }
{
    let low = key_of_steps(&front.steps, 0);
    let high = key_of_steps(&front.steps, 255);
    (low, high)
}

// The bytes of one step.
const STEP_BYTES: usize = 4;

// How many bytes the most steps have.
const MOST_BYTES: usize = STEP_BYTES * MOST_STEPS;

// The key cut from the bytes of these steps and filled up with one byte.
pub(crate) fn key_of_steps<const W: usize>(steps: &Steps, fill: u8) -> IndexKey<W>
    ensures { result ≡ cut_number W fill (bytes_of_steps steps.now) }
{
    let mut bytes = [0; MOST_BYTES];
    let all = steps.as_slice();
    for (place, step) in all.iter().enumerate() {
        put_step(&mut bytes, place, *step);
    }
    IndexKey::cut(&bytes[..STEP_BYTES * all.len()], fill)
}

// Puts the bytes of a step behind those of the steps before it.
fn put_step(bytes: &mut [u8], place: usize, step: i32)
    requires { 4 * place + 4 ≤ length bytes.old }
    ensures put { take (4 * place + 4) bytes.new ≡ take (4 * place) bytes.old ++ step_bytes step }
    ensures length { length bytes.new ≡ length bytes.old }
{
    let from = STEP_BYTES * place;
    bytes[from..from + STEP_BYTES].copy_from_slice(&step_bytes(step));
}

// A step and 2^31, the highest byte first.
fn step_bytes(step: i32) -> [u8; STEP_BYTES]
    ensures { result ≡ step_bytes step }
{
    let raised = i64::from(step) + 2_147_483_648;
    (raised as u32).to_be_bytes()
}
