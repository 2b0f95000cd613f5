// Which name a copy gets.
ghost use Rattle.std.specs.Prelude.{◌≡◌, ℕ, ◌≤◌, [], map, IfOk, IfSome, MatchOption, string_bytes};
ghost use Rattle.std.specs.Bool.{Decides};
ghost use Rattle.std.specs.Char.{IsAsciiDigit};
ghost use Rattle.std.specs.List.{All, Contains};
ghost use Rattle.tune_desk.specs.KeptNames.{folder_of};
ghost use Rattle.desk_scenes.specs.FileAnswers.{Did};
ghost use Rattle.desk_scenes.specs.Scenes.{IsQuiet};
ghost use Rattle.desk_backups.specs.CopyNames.{numbered_copy};
ghost use Rattle.desk_backups.specs.Inside.Numbering.{AreListedCopies, IsCopyNumber, TellsNumbers};
ghost use Rattle.desk_backups.specs.NextCopies.{CountsCopies, FindsNextCopy, IsCopyName};
ghost use Rattle.desk_backups.specs.NextCopies.{NumbersCopy};

use crate::backup_reasons::Unbacked;
use desk_copies::sum_path;
use std::alloc::{AllocError, Global};
use std::path::Path;
use tune_desk::{Desk, DeskFault, ResultFault, ResultRefusal, Standing};

/// How many digits the number of a copy has at most.
const DIGITS: usize = 9;

/// The path of a copy, which is COPY of this number.
#[derive(Drop)]
pub(crate) struct NamedCopy {
    pub(crate) path: String,
    pub(crate) number: u32,
}

/// COPY of a number: COPY itself for 0, and else COPY, a dot and the number.
pub(crate) fn numbered(alloc: Global, copy: &String, number: u32) -> Result<String, AllocError>
    ensures { IfOk result
        (λ path. string_bytes path ≡ numbered_copy (string_bytes copy.now) number) }
{
    if number == 0 {
        String::from_str(alloc, copy.as_str())
    } else {
        format!(in alloc; "{copy}.{number}")
    }
}

/// Finds the name of a new copy: COPY, where neither that nor a COPY.N is there, and else COPY.N
/// with the next number. Nothing stands at its sum.
pub(crate) fn find_name<K: AllocGlobal + Desk>(
    desk: &mut K,
    file: &String,
    copy: &String,
) -> Result<NamedCopy, Unbacked>
    ensures quiet { IsQuiet (K.deeds desk.old) (K.deeds desk.new) }
    ensures next { IfOk result (λ named. FindsNextCopy (string_bytes copy.now) named.number
        (K.deeds desk.old) (K.deeds desk.new)) }
    ensures named { IfOk result (λ named. string_bytes named.path
        ≡ numbered_copy (string_bytes copy.now) named.number) }
{
    let number = next_number(desk, file, copy)?;
    let Ok(path) = numbered(desk.alloc(), copy, number) else {
        return Err(Unbacked::OutOfMemory);
    };
    if !is_plain(&path) {
        return Err(Unbacked::Name);
    }
    match stale_sum(desk, &path) {
        Ok(false) => Ok(NamedCopy { path, number }),
        Ok(true) => Err(Unbacked::SumStands(path)),
        Err(why) => Err(why),
    }
}

// Whether anything stands where the sum of a copy is to stand.
fn stale_sum<K: AllocGlobal + Desk>(desk: &mut K, path: &String) -> Result<bool, Unbacked>
    ensures { IsQuiet (K.deeds desk.old) (K.deeds desk.new) }
{
    let Ok(beside) = sum_path(desk.alloc(), path) else {
        return Err(Unbacked::OutOfMemory);
    };
    match desk.look(&beside) {
        Ok(Standing::Nothing) => Ok(false),
        Ok(_) => Ok(true),
        Err(fault) => Err(Unbacked::Unasked(fault)),
    }
}

// Whether `sha256sum -c` reads the name of a file as it stands.
fn is_plain(path: &String) -> bool {
    match Path::new(path.as_str()).file_name() {
        Some(name) => !name
            .bytes()
            .any(|byte| byte == b'\\' || byte == b'\n' || byte == b'\r'),
        None => false,
    }
}

// The number of the next copy. COPY is not FILE.
fn next_number<K: AllocGlobal + Desk>(
    desk: &mut K,
    file: &String,
    copy: &String,
) -> Result<u32, Unbacked>
    ensures quiet { IsQuiet (K.deeds desk.old) (K.deeds desk.new) }
    ensures next { IfOk result (λ number. FindsNextCopy (string_bytes copy.now) number
        (K.deeds desk.old) (K.deeds desk.new)) }
{
    match desk.look(copy) {
        Ok(standing) => next_by(desk, file, copy, standing),
        Err(fault) => Err(Unbacked::Unasked(fault)),
    }
}

// The same by what stands at COPY. A file that stands there is not FILE by another name.
fn next_by<K: AllocGlobal + Desk>(
    desk: &mut K,
    file: &String,
    copy: &String,
    standing: Standing,
) -> Result<u32, Unbacked>
    ensures quiet { IsQuiet (K.deeds desk.old) (K.deeds desk.new) }
    ensures numbers { IfOk result (λ number. Did (K.deeds desk.old) (K.deeds desk.new)
        (NumbersCopy standing (string_bytes copy.now) number)) }
{
    match standing {
        Standing::File => match desk.is_same(copy, file) {
            Ok(false) | Err(DeskFault::Missing) => next_behind(desk, copy, standing),
            Ok(true) => Err(Unbacked::File(ResultFault {
                target: None,
                why: ResultRefusal::Archive,
            })),
            Err(fault) => Err(Unbacked::Unasked(fault)),
        },
        Standing::Nothing => next_behind(desk, copy, standing),
        _ => Ok(0),
    }
}

// The number behind the greatest that is there, where COPY itself is 0 if a file stands there.
fn next_behind<K: AllocGlobal + Desk>(
    desk: &mut K,
    copy: &String,
    standing: Standing,
) -> Result<u32, Unbacked>
    ensures quiet { IsQuiet (K.deeds desk.old) (K.deeds desk.new) }
    ensures counts { IfOk result (λ number. Did (K.deeds desk.old) (K.deeds desk.new)
        (CountsCopies standing (string_bytes copy.now) number)) }
{
    let numbers = numbers_there(desk, copy)?;
    match greatest(numbers.as_slice()) {
        Some(number) => match number.checked_add(1) {
            Some(next) => Ok(next),
            None => Err(Unbacked::Name),
        },
        None => match standing {
            Standing::File => Ok(1),
            _ => Ok(0),
        },
    }
}

fn greatest(numbers: &[u32]) -> Option<u32>
    ensures { MatchOption result (numbers.now ≡ [])
        (λ greatest. Contains numbers.now greatest
        × All (λ number. number ≤ greatest) numbers.now) }
{
    numbers.iter().copied().max()
}

/// The numbers N of each COPY.N that stands there, sorted.
pub(crate) fn numbers_there<K: AllocGlobal + Desk>(
    desk: &mut K,
    copy: &String,
) -> Result<Vec<u32>, Unbacked>
    ensures quiet { IsQuiet (K.deeds desk.old) (K.deeds desk.new) }
    ensures told { IfOk result (λ numbers. Did (K.deeds desk.old) (K.deeds desk.new)
        (TellsNumbers (string_bytes copy.now) numbers.items)) }
{
    let Ok(folder) = folder_of(desk.alloc(), copy) else {
        return Err(Unbacked::OutOfMemory);
    };
    match desk.names(desk.alloc(), &folder) {
        Ok(names) => match numbers_in(desk.alloc(), names.as_slice(), copy) {
            Ok(numbers) => Ok(numbers),
            Err(_) => Err(Unbacked::OutOfMemory),
        },
        Err(DeskFault::Missing) => Ok(Vec::new(desk.alloc())),
        Err(fault) => Err(Unbacked::Unasked(fault)),
    }
}

// The folder of a path.
fn folder_of(alloc: Global, path: &String) -> Result<String, AllocError>
    ensures { IfOk result (λ folder. string_bytes folder ≡ folder_of (string_bytes path.now)) }
{
    match Path::new(path.as_str()).parent() {
        Some(folder) if folder.as_str().is_empty() => String::from_str(alloc, "."),
        Some(folder) => String::from_str(alloc, folder.as_str()),
        None => String::from_str(alloc, path.as_str()),
    }
}

// The numbers of these names that are COPY's, sorted.
fn numbers_in(alloc: Global, names: &[String], copy: &String) -> Result<Vec<u32>, AllocError>
    ensures { IfOk result (λ numbers.
        AreListedCopies (string_bytes copy.now) (map string_bytes names.now) numbers.items) }
{
    let mut numbers = Vec::new(alloc);
    let Some(last) = Path::new(copy.as_str()).file_name() else {
        return Ok(numbers);
    };
    for name in names {
        if let Some(number) = number_of(name.as_str(), last) {
            numbers.push(number)?;
        }
    }
    numbers.as_mut_slice().sort_unstable();
    Ok(numbers)
}

// The number of a name that is another name, a dot and a number.
fn number_of(name: &str, last: &str) -> Option<u32>
    ensures is { IfSome result (IsCopyName last.now name.now) }
    ensures each { (number : ℕ) → IsCopyName last.now name.now number → result ≡ Some number }
{
    let rest = name.strip_prefix(last)?;
    let digits = rest.strip_prefix('.')?;
    copy_number(digits)
}

// The number that one to nine digits write, of which the first is not 0.
fn copy_number(digits: &str) -> Option<u32>
    ensures is { IfSome result (IsCopyNumber digits.now) }
    ensures each { (number : ℕ) → IsCopyNumber digits.now number → result ≡ Some number }
{
    if digits.len() > DIGITS || digits.starts_with('0') || !are_digits(digits) {
        return None;
    }
    digits.parse::<u32>().ok()
}

fn are_digits(text: &str) -> bool
    ensures { Decides result (All IsAsciiDigit text.now) }
{
    text.bytes().all(|byte| byte.is_ascii_digit())
}
