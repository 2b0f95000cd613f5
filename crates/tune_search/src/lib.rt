//! The search indexes of an archive as one value: by titles, rhythms, scales and incipits.
//!
//! What goes in and out is texts with their numbers; which entries stand for them is said inside.
#![tactic(auto)]

mod changing;
mod claims;
mod finding;
mod group_claims;
mod held_entries;
mod held_incipits;
mod held_keys;
mod incipit_claims;
mod incipit_entries;
mod incipit_index;
mod incipit_run;
mod index_changes;
mod key_claims;
mod laws;
mod lengthening;
mod load_laws;
mod loading;
mod runs;
mod searches;
mod single_claims;
mod storing;

pub use claims::{SearchClaims, law_of_claims};
pub use held_entries::HeldEntries;
pub use held_incipits::HeldIncipits;
pub use incipit_entries::{IncipitEntries, IncipitNotes};
pub use incipit_run::IncipitRun;
pub use index_changes::{put_run, store_list, take_run};
pub use laws::law_of_search_pages;
pub use load_laws::law_of_loads;
pub use loading::{SearchEntries, SearchFirsts};
pub use runs::Runs;
pub use searches::SearchIndexes;
