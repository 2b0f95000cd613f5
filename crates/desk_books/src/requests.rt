// What an add is given.
use desk_terms::Adding;

/// What an add is given besides its books: FILE, what standard input gave, and how books are taken
/// in.
#[derive(Clone, Copy)]
pub(crate) struct Request<'a> {
    pub(crate) file: &'a String,
    pub(crate) input: &'a [u8],
    pub(crate) how: &'a Adding,
}
