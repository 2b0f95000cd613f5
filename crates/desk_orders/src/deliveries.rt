// Where a result goes.
ghost use Rattle.std.specs.Prelude.{◌≡◌, Some, string_bytes};
ghost use Rattle.tune_scripts.specs.Streams.{streams_in};
ghost use Rattle.tune_desk.specs.Results.{result_places};
ghost use Rattle.desk_scenes.specs.Scenes.{WritesResult};
ghost use Rattle.desk_orders.specs.Orders.{Delivers};

use desk_scenes::{StandardStreams, print, write_file};
use desk_words::Target;
use std::io::Write;
use tune_desk::{Desk, Destination, write_result};
use tune_scripts::Console;

/// Writes a result where a target says: to standard output for `-`, and else to a file. Gives the
/// status.
pub(crate) fn deliver<C: Console, E: Write, K: AllocGlobal + Desk>(
    desk: &mut K,
    file: &String,
    target: &Target,
    bytes: &[u8],
    standard: &mut StandardStreams<C, E>,
) -> u8
    ensures { Delivers (string_bytes file.now) target.now bytes.now (record {
      streams = streams_in C.Console standard.old.console standard.new.console;
      was = K.deeds desk.old;
      now = K.deeds desk.new;
      status = result;
    }) }
{
    if target.out.as_str() == "-" {
        print(standard, bytes)
    } else {
        let to = Destination {
            file,
            out: &target.out,
            force: target.force,
        };
        write_file(desk, &to, bytes, &mut standard.errors)
    }
}
