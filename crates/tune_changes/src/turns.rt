// Turns, and what is to become of tunes and set lists.
use abc_fields::TuneText;
use tune_sets::{NumberList, SetName};

/// Of a tune or a set list, what it was and what it is to be; none where it was not, or is not to
/// be.
#[derive(Drop)]
pub enum Turn {
    /// The tune of this number, by its text.
    Tune {
        number: u32,
        was: Option<TuneText>,
        is: Option<TuneText>,
    },
    /// The set list of this name, by the numbers at its places.
    Set {
        name: SetName,
        was: Option<NumberList>,
        is: Option<NumberList>,
    },
}

/// What a tune or a set list is to become; none where it is to go.
#[derive(Drop)]
pub enum Aim {
    /// The tune of this number, by its text.
    Tune {
        number: u32,
        text: Option<TuneText>,
    },
    /// The set list of this name, by the numbers at its places.
    Set {
        name: SetName,
        numbers: Option<NumberList>,
    },
}
