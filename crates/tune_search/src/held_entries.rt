// Held entries of incipits, by eight notes or by twelve.
ghost use Rattle.std.specs.Prelude.{◌≡◌, length};
ghost use Rattle.tune_search.specs.IncipitForms.{entries_held};

use crate::held_incipits::HeldIncipits;
use index_keys::EntryList;

/// Entries of incipits as an opening holds them, by eight notes or by twelve.
#[derive(Drop)]
pub enum HeldEntries {
    Eight(HeldIncipits<32>),
    Twelve(HeldIncipits<48>),
}

impl HeldEntries {
    /// How many entries there are.
    pub fn len(&self) -> usize
        ensures { result ≡ length (entries_held self.now) }
    {
        match self {
            HeldEntries::Eight(entries) => entries.len(),
            HeldEntries::Twelve(entries) => entries.len(),
        }
    }
}
