// A tune, written to a new file for an editor.
ghost use Rattle.std.specs.Prelude.{◌≡◌, ◌++◌, codes, decimal, string_bytes, IfOk};
ghost use Rattle.tune_books.specs.WrittenBooks.{written_tune};
ghost use Rattle.tune_scripts.specs.Streams.{streams_in};
ghost use Rattle.desk_orders.specs.Orders.{WritesDraft};

use desk_scenes::{REFUSED, StandardStreams, print, say, write_file};
use std::alloc::{AllocError, Global};
use std::io::Write;
use tune_desk::{Desk, Destination};
use tune_scripts::Console;
use tune_store::Tune;

/// Writes a tune to a new file, and prints its revision.
pub(crate) fn write_draft<C: Console, E: Write, K: AllocGlobal + Desk>(
    desk: &mut K,
    file: &String,
    tune: &Tune,
    out: &String,
    standard: &mut StandardStreams<C, E>,
) -> u8
    ensures { WritesDraft (string_bytes file.now) tune.now (string_bytes out.now) (record {
      streams = streams_in C.Console standard.old.console standard.new.console;
      was = K.deeds desk.old;
      now = K.deeds desk.new;
      status = result;
    }) }
{
    match (
        draft_text(desk.alloc(), tune),
        revision_line(desk.alloc(), tune.revision),
    ) {
        (Ok(text), Ok(revision)) => {
            let to = Destination {
                file,
                out,
                force: false,
            };
            match write_file(desk, &to, text.as_slice(), &mut standard.errors) {
                0 => print(standard, revision.as_slice()),
                status => status,
            }
        }
        _ => {
            say(
                &mut standard.errors,
                out.as_str(),
                "there is not memory enough",
            );
            REFUSED
        }
    }
}

// The `X:` line of a tune, and its text.
fn draft_text(alloc: Global, tune: &Tune) -> Result<Vec<u8>, AllocError>
    ensures { IfOk result (λ bytes. bytes.items ≡ written_tune tune.now.number tune.now.text) }
{
    let mut bytes = Vec::new(alloc);
    write!(bytes, "X:{}\n", tune.number).map_err(|_| AllocError)?;
    bytes.extend_from_slice(tune.text.bytes())?;
    Ok(bytes)
}

fn revision_line(alloc: Global, revision: u16) -> Result<Vec<u8>, AllocError>
    ensures { IfOk result (λ bytes. bytes.items ≡ decimal revision ++ codes "\n") }
{
    let mut bytes = Vec::new(alloc);
    write!(bytes, "{revision}\n").map_err(|_| AllocError)?;
    Ok(bytes)
}
