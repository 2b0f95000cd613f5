// Keys of incipits as an opening holds them.
use tune_incipit::SmallSteps;

/// A key of an incipit. The keys of most tunes are those of small steps, which take a quarter of
/// the room.
#[derive(Clone, Copy, Debug)]
pub enum HeldKey {
    Steps(SmallSteps),
    /// Any other key: which it is of those that are kept whole.
    Other(u32),
}
