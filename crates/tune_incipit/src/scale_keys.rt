// Scales as keys, and which tunes a scale finds.
ghost use Rattle.std.specs.Prelude.{◌≡◌, ◌≤◌, ◌∷◌, [], IfOk};
ghost use Rattle.std.specs.Option.{option_to_list};
ghost use Rattle.tune_incipit.specs.Scales.{finds_scale, scale_of_text};
ghost use Rattle.tune_incipit.specs.ScaleAndIncipitKeys.{scale_code, scale_key, scale_keys};
ghost use Rattle.tune_incipit.specs.ScaleAndIncipitKeys.{scale_keys_of};
ghost use Rattle.tune_incipit.specs.ScaleAndIncipitKeys.{tonic_code, sign_code, mode_code};

use abc_fields::{TuneText, fields};
use abc_keys::{Letter, Mode, Scale, Sign, is_same_scale, key_of};
use index_keys::{IndexKey, Keyed};
use std::alloc::{AllocError, Global};

/// Tunes by their scales: the key has the tonic's letter; `b`, a space or `#`; and the digit of the
/// mode, from `0` for major to `6` for Locrian (this archive's profile). A tune without a scale has
/// no key.
pub enum ScaleKeys {}

impl Keyed<32> for ScaleKeys {
    ghost use Rattle.std.specs.Prelude.{◌≡◌, true, Some, None};
    ghost use Rattle.std.proofs.Common.{sym, ap};
    ghost use Rattle.std.proofs.lemmas.Bool.{true≢false};
    ghost use Rattle.abc_fields.specs.Fields.{key_text_of};
    ghost use Rattle.abc_keys.proofs.SameScaleLaw.{same_is};
    ghost use Rattle.index_keys.specs.KeyLists.{KeysRise, HasKeyWithin};
    ghost use Rattle.index_keys.proofs.FoundKeys.{one_rises, one_is_within};
    ghost use Rattle.tune_incipit.specs.Scales.{finds_scale, is_scale, scale_of_text};
    ghost use Rattle.tune_incipit.specs.ScaleAndIncipitKeys.{scale_key, scale_keys, scale_keys_of};

    type Text = TuneText;

    type Query = Scale;

    ghost keys_of = { scale_keys };

    ghost low_of = { scale_key };

    ghost high_of = { scale_key };

    ghost matches = { finds_scale };

    fn keys(alloc: Global, text: &TuneText) -> Result<Vec<IndexKey<32>>, AllocError>
        ensures { IfOk result (λ keys. keys.items ≡ scale_keys text.now) }
    {
        Vec::from_slice(alloc, key_of_scale(fields(text).key).as_slice())
    }

    fn range(query: &Scale) -> (IndexKey<32>, IndexKey<32>)
        ensures low { result.0 ≡ scale_key query.now }
        ensures high { result.1 ≡ scale_key query.now }
    {
        (scale_key(query), scale_key(query))
    }

    fn test(query: &Scale, text: &TuneText) -> bool {
        is_in_scale(query, text)
    }

    ghost rise = { λ text. elim (scale_of_text (key_text_of text))
        as (λ own. KeysRise 0 (scale_keys_of own)) [
          | None ↦ tt
          | Some own ↦ one_rises (scale_key own)
        ] };

    ghost law = { λ query text. elim (scale_of_text (key_text_of text))
        as (λ own. is_scale query own ≡ true
        → HasKeyWithin (scale_keys_of own) (scale_key query) (scale_key query)) [
          | None ↦ λ is. absurd (true≢false (sym is))
          | Some own ↦ λ is. one_is_within _ _ (ap scale_key (same_is query own is))
        ] };
}

// Whether the key of the tune is in this scale.
fn is_in_scale(scale: &Scale, text: &TuneText) -> bool
    ensures { result ≡ finds_scale scale.now text.now }
{
    match key_of(fields(text).key).scale() {
        Some(own) => is_same_scale(scale, &own),
        None => false,
    }
}

/// The key of a tune whose key has this text, where it stands in a scale. Most texts are a tonic
/// alone, which stands in its major scale.
pub fn key_of_scale(text: &[u8]) -> Option<IndexKey<32>>
    ensures { option_to_list result ≡ scale_keys_of (scale_of_text text.now) }
{
    match text {
        [byte] if b'A' <= *byte && *byte <= b'G' => Some(key_of_major(*byte)),
        _ => key_of_any_scale(text),
    }
}

// The key of the major scale of a tonic from `A` to `G`.
fn key_of_major(tonic: u8) -> IndexKey<32>
    requires low { 65 ≤ tonic }
    requires high { tonic ≤ 71 }
    ensures { result ∷ [] ≡ scale_keys_of (scale_of_text (tonic ∷ [])) }
{
    IndexKey::cut(&[tonic, b' ', b'0'], 0)
}

// The same of any text.
fn key_of_any_scale(text: &[u8]) -> Option<IndexKey<32>>
    ensures { option_to_list result ≡ scale_keys_of (scale_of_text text.now) }
{
    match key_of(text).scale() {
        Some(scale) => Some(scale_key(&scale)),
        None => None,
    }
}

// The key of a scale.
fn scale_key(scale: &Scale) -> IndexKey<32>
    ensures { result ≡ scale_key scale.now }
{
    IndexKey::cut(&scale_code(scale), 0)
}

fn scale_code(scale: &Scale) -> [u8; 3]
    ensures { result ≡ scale_code scale.now }
{
    [
        tonic_code(scale.tonic),
        sign_code(scale.sign),
        mode_code(scale.mode),
    ]
}

fn tonic_code(tonic: Letter) -> u8
    ensures { result ∷ [] ≡ tonic_code tonic }
{
    match tonic {
        Letter::C => b'C',
        Letter::D => b'D',
        Letter::E => b'E',
        Letter::F => b'F',
        Letter::G => b'G',
        Letter::A => b'A',
        Letter::B => b'B',
    }
}

fn sign_code(sign: Sign) -> u8
    ensures { result ∷ [] ≡ sign_code sign }
{
    match sign {
        Sign::Flat => b'b',
        Sign::Natural => b' ',
        Sign::Sharp => b'#',
    }
}

fn mode_code(mode: Mode) -> u8
    ensures { result ∷ [] ≡ mode_code mode }
{
    match mode {
        Mode::Major => b'0',
        Mode::Dorian => b'1',
        Mode::Phrygian => b'2',
        Mode::Lydian => b'3',
        Mode::Mixolydian => b'4',
        Mode::Minor => b'5',
        Mode::Locrian => b'6',
    }
}
