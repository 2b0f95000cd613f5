//! A test of changes that are laid on pages of which there may be few: each call with ample memory.
//! What a change asks for is shown by a proof alone, so this is proved.
#![tactic(auto)]

#[cfg(test)]
mod disks;
#[cfg(test)]
mod lays;
#[cfg(test)]
mod tests;
