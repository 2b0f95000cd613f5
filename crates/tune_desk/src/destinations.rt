// Where a result is to go.

/// Where a result is to go, beside the archive of its order.
#[derive(Clone, Copy)]
pub struct Destination<'a> {
    /// FILE: the archive of the order, which need not be there.
    pub file: &'a String,
    /// OUT: a path, taken as it stands.
    pub out: &'a String,
    /// Whether a file that stands there may be written over.
    pub force: bool,
}
