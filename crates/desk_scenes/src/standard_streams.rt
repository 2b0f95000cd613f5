// Standard input, output and error.

/// The three streams that every program is given.
#[derive(Drop)]
pub struct StandardStreams<C, E> {
    /// Standard input and standard output.
    pub console: C,
    /// Standard error, to which is said what is wrong.
    pub errors: E,
}
