// The names that are kept for an archive, and the folders of paths.
ghost use Rattle.std.specs.Prelude.{◌≡◌, IfOk, string_bytes};
ghost use Rattle.std.specs.Bool.{Decides};
ghost use Rattle.std.specs.Char.{IsAsciiDigit};
ghost use Rattle.std.specs.List.{All};
ghost use Rattle.tune_desk.specs.Inside.Asks.{FitsKinship, FitsEnding};
ghost use Rattle.tune_desk.specs.KeptNames.{folder_of, IsNumbered, IsKeptEnding};

use std::alloc::{AllocError, Global};
use std::path::Path;

// Whether a path has the name of another.
#[derive(Clone, Copy, Debug, PartialEq, Eq)]
pub(crate) enum Kinship {
    // It has neither its name nor one that is kept for it.
    Other,
    // Its last part is the same.
    Namesake,
    // Its last part is kept for the other.
    Kept,
}

// What the name of a path is to a file, were they in one folder.
pub(crate) fn kinship_of(path: &String, file: &String) -> Kinship
    ensures { FitsKinship (string_bytes path.now) (string_bytes file.now) result }
{
    let Some(name) = Path::new(path.as_str()).file_name() else {
        return Kinship::Other;
    };
    let Some(of_file) = Path::new(file.as_str()).file_name() else {
        return Kinship::Other;
    };
    match name.as_bytes().strip_prefix(of_file.as_bytes()) {
        Some(ending) => kinship_by_ending(ending),
        None => Kinship::Other,
    }
}

// The same by what stands behind the name of the file.
fn kinship_by_ending(ending: &[u8]) -> Kinship
    ensures { FitsEnding ending.now result }
{
    if ending.is_empty() {
        Kinship::Namesake
    } else if is_kept_ending(ending) {
        Kinship::Kept
    } else {
        Kinship::Other
    }
}

fn is_kept_ending(ending: &[u8]) -> bool
    ensures { Decides result (IsKeptEnding ending.now) }
{
    ending == b".new".as_slice() || ending == b".old.abc".as_slice() || is_numbered(ending)
}

fn is_numbered(ending: &[u8]) -> bool
    ensures { Decides result (IsNumbered ending.now) }
{
    let Some(rest) = ending.strip_prefix(b".") else {
        return false;
    };
    let Some(digits) = rest.strip_suffix(b".old") else {
        return false;
    };
    !digits.is_empty() && are_digits(digits)
}

fn are_digits(bytes: &[u8]) -> bool
    ensures { Decides result (All IsAsciiDigit bytes.now) }
{
    bytes.iter().all(|byte| byte.is_ascii_digit())
}

// The folder of a path.
pub(crate) fn folder_of(alloc: Global, path: &String) -> Result<String, AllocError>
    ensures { IfOk result (λ folder. string_bytes folder ≡ folder_of (string_bytes path.now)) }
{
    match Path::new(path.as_str()).parent() {
        Some(folder) if folder.as_str().is_empty() => String::from_str(alloc, "."),
        Some(folder) => String::from_str(alloc, folder.as_str()),
        None => String::from_str(alloc, path.as_str()),
    }
}
