//! Parts that stand on pages: chains and leaves, no page of which is another's.
#![tactic(auto)]

mod laws;

pub use laws::{law_of_parts, law_of_trades};
