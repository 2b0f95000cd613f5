// Writes tunes as books have them.
ghost use Rattle.std.specs.Prelude.{◌≡◌, ◌++◌, codes, OnOk};
ghost use Rattle.tune_books.specs.WrittenBooks.{written_tune};

use std::alloc::AllocError;
use std::io::Write;
use tune_store::Tune;

/// Writes a tune after an empty line and its number. The error is out of memory.
pub fn write_tune(bytes: &mut Vec<u8>, tune: &Tune) -> Result<(), AllocError>
    ensures { OnOk result (bytes.new.items ≡ bytes.old.items
        ++ (codes "\n" ++ written_tune tune.now.number tune.now.text)) }
{
    write!(bytes, "\nX:{}\n", tune.number).map_err(|_| AllocError)?;
    bytes.extend_from_slice(tune.text.bytes())?;
    Ok(())
}
