// A list of the changes that can be taken back.
ghost use Rattle.std.specs.Prelude.{IfOk, MatchResult, string_bytes};
ghost use Rattle.tune_scripts.specs.Streams.{streams_in};
ghost use Rattle.desk_scenes.specs.Scenes.{IsQuiet};
ghost use Rattle.desk_changes.specs.ToldChanges.{FindsEntries, HasChangeList, ListsChanges};
ghost use Rattle.desk_changes.specs.Inside.TriedUndoings.{steps_of};

use crate::change_subjects::change_rows;
use crate::taking_back::read_changes;
use crate::words::{NotUndone, say_not_undone};
use abc_fields::ByteText;
use desk_lists::change_list;
use desk_scenes::{StandardStreams, print};
use desk_terms::Form;
use std::io::Write;
use tune_desk::Desk;
use tune_scripts::Console;
use tune_undo::Step;

/// Lists the changes that can be taken back, the last one first, and gives the status. FILE itself
/// is not opened.
pub(crate) fn list_changes<C: Console, E: Write, K: AllocGlobal + Desk>(
    desk: &mut K,
    file: &String,
    form: Form,
    standard: &mut StandardStreams<C, E>,
) -> u8
    ensures { ListsChanges (string_bytes file.now) form (record {
      streams = streams_in C.Console standard.old.console standard.new.console;
      was = K.deeds desk.old;
      now = K.deeds desk.new;
      status = result;
    }) }
{
    match read_list(desk, file, form) {
        Ok(list) => print(standard, list.as_slice()),
        Err(why) => say_not_undone(&mut standard.errors, file.as_str(), &why),
    }
}

fn read_list<K: AllocGlobal + Desk>(
    desk: &mut K,
    file: &String,
    form: Form,
) -> Result<ByteText, NotUndone>
    ensures quiet { IsQuiet (K.deeds desk.old) (K.deeds desk.new) }
    ensures list { IfOk result (λ list. HasChangeList (string_bytes file.now) form list
        (K.deeds desk.old) (K.deeds desk.new)) }
{
    let entries = entries_left(desk, file)?;
    let rows = change_rows(desk.alloc(), entries.as_slice())?;
    let list = change_list(desk.alloc(), rows.as_slice(), form)?;
    Ok(list)
}

// The entries that are not undone: none where there is no book of old texts.
fn entries_left<K: AllocGlobal + Desk>(desk: &mut K, file: &String) -> Result<Vec<Step>, NotUndone>
    ensures { MatchResult result
        (λ steps. FindsEntries (string_bytes file.now) (steps_of steps.items)
        (K.deeds desk.old) (K.deeds desk.new))
        (λ _. IsQuiet (K.deeds desk.old) (K.deeds desk.new)) }
{
    match read_changes(desk, file) {
        Ok(changes) => Ok(changes),
        Err(NotUndone::NoBook) => Ok(Vec::new(desk.alloc())),
        Err(why) => Err(why),
    }
}
