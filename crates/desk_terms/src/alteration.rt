// Changes of tunes and set lists.

/// What is to be changed in a store of tunes.
#[derive(Drop)]
pub enum Alteration {
    /// The tunes of these numbers go.
    Delete(Vec<u32>),
    /// The tunes of these numbers go to the end of the set list of this name, which is made where
    /// there is none.
    Put { name: String, numbers: Vec<u32> },
    /// These places of the set list go, each as it is counted before the change.
    Cut { name: String, places: Vec<u32> },
    /// The tune at a place of the set list goes to another place.
    Move { name: String, place: u32, to: u32 },
    /// The set list of this name goes.
    Drop(String),
}
