// By how many notes the layouts keep incipits.
ghost use Rattle.std.specs.Prelude.{◌≡◌};
ghost use Rattle.tune_search.specs.IncipitForms.{note_count};
ghost use Rattle.tune_store.specs.Limits.{notes_of};

use tune_search::IncipitNotes;
use tune_store::Layout;

/// By how many notes an archive of this layout keeps incipits.
pub fn incipit_notes(layout: Layout) -> IncipitNotes
    ensures { note_count result ≡ notes_of layout }
{
    match layout {
        Layout::One => IncipitNotes::Eight,
        Layout::Two => IncipitNotes::Twelve,
    }
}
