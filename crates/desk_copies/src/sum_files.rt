// The file beside a copy that tells its sum, as `sha256sum -c` reads it.
ghost use Rattle.std.specs.Prelude.{◌≡◌, List, ℕ, IfOk, IfSome, OnOk, string_bytes};
ghost use Rattle.desk_copies.specs.SumFiles.{TellsSum, sum_path};
ghost use Rattle.desk_copies.specs.Inside.Asked.{AsksSum};

use hex::FromHex;
use std::alloc::{AllocError, Global};
use tune_desk::{Desk, DeskFault, Standing};

/// How many digits a sum has.
const DIGITS: usize = 64;

/// Why a copy does not agree with the sum beside it.
#[derive(Clone, Copy)]
pub enum SumFault {
    /// It has another sum.
    Differs,
    /// What stands there tells no sum.
    NoSum,
    /// It could not be read.
    Unread(DeskFault),
    /// There was no memory.
    OutOfMemory,
}

/// COPY.sha256.
pub fn sum_path(alloc: Global, copy: &String) -> Result<String, AllocError>
    ensures { IfOk result (λ path. string_bytes path ≡ sum_path (string_bytes copy.now)) }
{
    format!(in alloc; "{copy}.sha256")
}

/// Compares a sum with that of COPY.sha256, where anything stands there.
pub fn compare_sum<K: AllocGlobal + Desk>(
    desk: &mut K,
    copy: &String,
    sum: &[u8; 32],
) -> Result<(), SumFault>
    ensures { AsksSum (string_bytes copy.now) sum.now result
        (K.deeds desk.old) (K.deeds desk.new) }
{
    let Ok(path) = sum_path(desk.alloc(), copy) else {
        return Err(SumFault::OutOfMemory);
    };
    match desk.look(&path) {
        Ok(Standing::Nothing) => Ok(()),
        Ok(_) => compare_told(desk, &path, sum),
        Err(fault) => Err(SumFault::Unread(fault)),
    }
}

// What stands at COPY.sha256 is read.
fn compare_told<K: AllocGlobal + Desk>(
    desk: &mut K,
    path: &String,
    sum: &[u8; 32],
) -> Result<(), SumFault>
    ensures { (copy : List ℕ) → string_bytes path.now ≡ sum_path copy
        → AsksSum copy sum.now result (K.deeds desk.old) (K.deeds desk.new) }
{
    match desk.read(desk.alloc(), path) {
        Ok(text) => tells(text.as_slice(), sum),
        Err(fault) => Err(SumFault::Unread(fault)),
    }
}

// That a text tells this sum.
fn tells(text: &[u8], sum: &[u8; 32]) -> Result<(), SumFault>
    ensures { OnOk result (TellsSum text.now sum.now) }
{
    match told_sum(text) {
        Some(told) => {
            if told == *sum {
                Ok(())
            } else {
                Err(SumFault::Differs)
            }
        }
        None => Err(SumFault::NoSum),
    }
}

// The sum that a line of `sha256sum` tells: 64 digits, a blank, and a blank or a star.
fn told_sum(text: &[u8]) -> Option<[u8; 32]>
    ensures { IfSome result (λ sum. TellsSum text.now sum) }
{
    if text.len() < DIGITS + 2 {
        return None;
    }
    if text[DIGITS] != b' ' {
        return None;
    }
    let digits = &text[..DIGITS];
    match <[u8; 32] as FromHex>::from_hex(digits) {
        Ok(sum) => Some(sum),
        Err(_) => None,
    }
}
