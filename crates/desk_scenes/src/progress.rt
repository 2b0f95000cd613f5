// How far an order is.

/// Where an order tells how far it is, while it goes on.
pub trait Progress {
    /// So many of all of these are done.
    fn progress(&mut self, what: &str, done: u64, all: u64);
}
