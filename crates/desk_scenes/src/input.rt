// Standard input, to its end.
ghost use Rattle.std.specs.Prelude.{◌≡◌, IfSome};
ghost use Rattle.tune_scripts.specs.Streams.{streams_in};
ghost use Rattle.desk_scenes.specs.Printing.{ReadsAll};

use std::alloc::Global;
use tune_scripts::{Console, PartRead};

/// How many bytes are asked for at once.
const PART: usize = 65_536;

/// All that is left of standard input; none where the reader failed, or there was no memory.
pub fn read_input<C: Console>(alloc: Global, console: &mut C) -> Option<Vec<u8>>
    ensures bytes { IfSome result (λ bytes.
        ReadsAll (streams_in C.Console console.old console.new) bytes.items) }
    ensures output { C.output console.new ≡ C.output console.old }
{
    let mut bytes = Vec::new(alloc);
    for _ in 0..u64::MAX {
        let mut part = Vec::new(alloc);
        match console.read_part(PART, true, &mut part) {
            PartRead::Taken(_, true) => {
                if bytes.extend_from_slice(part.as_slice()).is_err() {
                    return None;
                }
            }
            PartRead::End => return Some(bytes),
            _ => return None,
        }
    }
    None
}
