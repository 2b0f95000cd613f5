// What is to be undone.
use crate::form::Form;

/// What is to be undone, of the changes that are not undone yet.
#[derive(Clone, Copy)]
pub enum Undoing {
    /// The last one.
    Last,
    /// The last ones, as many as this.
    To(u32),
    /// None: they are listed, the last one first.
    List(Form),
}
