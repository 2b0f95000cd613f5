// The file beside a copy that tells its sum.
ghost use Rattle.std.specs.Prelude.{◌≡◌, IfOk, MatchResult, string_bytes};
ghost use Rattle.tune_desk.specs.Results.{SparesFiles};
ghost use Rattle.desk_backups.specs.Backups.{WritesSum};
ghost use Rattle.desk_backups.specs.CopyNames.{name_of_path, sum_line, sum_places};

use crate::backup_reasons::Unbacked;
use desk_copies::sum_path;
use hex::encode;
use std::alloc::{AllocError, Global};
use std::path::Path;
use tune_desk::{Desk, Destination, write_result};

/// Writes the sum of a copy beside it.
pub(crate) fn write_sum<K: AllocGlobal + Desk>(
    desk: &mut K,
    file: &String,
    path: &String,
    sum: &[u8; 32],
) -> Result<(), Unbacked>
    ensures spares { SparesFiles (sum_places (string_bytes file.now) (string_bytes path.now))
        (K.deeds desk.old) (K.deeds desk.new) }
    ensures writes { MatchResult result
        (λ _. WritesSum (string_bytes file.now) (string_bytes path.now) sum.now
        (K.deeds desk.old) (K.deeds desk.new)) (λ _. Unit) }
{
    let Ok(beside) = sum_path(desk.alloc(), path) else {
        return Err(Unbacked::OutOfMemory);
    };
    let Ok(line) = sum_line(desk.alloc(), path, sum) else {
        return Err(Unbacked::OutOfMemory);
    };
    let to = Destination {
        file,
        out: &beside,
        force: false,
    };
    match write_result(desk.alloc(), desk, &to, line.as_bytes()) {
        Ok(()) => Ok(()),
        Err(fault) => Err(Unbacked::Unsummed(fault)),
    }
}

// The line that `sha256sum -c` reads.
fn sum_line(alloc: Global, path: &String, sum: &[u8; 32]) -> Result<String, AllocError>
    ensures { IfOk result (λ line. string_bytes line
        ≡ sum_line sum.now (string_bytes path.now)) }
{
    let name = name_of(path);
    let digits = encode(alloc, *sum)?;
    format!(in alloc; "{digits}  {name}\n")
}

// The last part of a path.
fn name_of(path: &String) -> &str
    ensures { result.now ≡ name_of_path (string_bytes path.now) }
{
    match Path::new(path.as_str()).file_name() {
        Some(name) => name,
        None => "",
    }
}
