// A store whose stops leave something.
ghost use Rattle.std.specs.Prelude.{◌≡◌, ◌+◌, ◌<◌, ◌≤◌, [], ◌∷◌, ◌++◌, false, IfOk, vec_len};
ghost use Rattle.std.specs.Vec.{vec_capacity};
ghost use Rattle.tune_store.specs.State.{empty_state};
ghost use Rattle.test_stores.specs.Record.{LeftSince, IsOfCount, IsRecorded, last_place};

use crate::asking::asks;
use crate::keeping::changes_nothing;
use std::alloc::{AllocError, Global};
use tune_store::{Catalog, Command, ListArchive, Refusal, Reply, TuneStore};

/// A fake store: an archive in memory, and the record of a device that holds one number, how many
/// tunes there are. Each accepted change writes it, and each entry is a file that a stop may have
/// left: the last now, the others earlier. There is memory for `most` entries: from then on each
/// command but a question is refused `OutOfMemory`.
#[derive(Drop)]
pub struct RecordedStore {
    archive: ListArchive,
    entries: Vec<usize>,
    most: usize,
}

impl RecordedStore {
    /// A store without a tune, whose record begins with that. There is memory for `most` entries.
    /// The error is out of memory.
    pub fn new(alloc: Global, most: usize) -> Result<RecordedStore, AllocError>
        ensures state { IfOk result (λ store. ⟦<RecordedStore as TuneStore>⟧.state store
            ≡ empty_state) }
        ensures entries { IfOk result (λ store. store.entries.items ≡ 0 ∷ []) }
        ensures sound { IfOk result (λ store. ⟦<RecordedStore as TuneStore>⟧.sound store) }
    {
        let mut entries = Vec::new(alloc);
        entries.push(0)?;
        Ok(RecordedStore {
            archive: ListArchive::new(alloc),
            entries,
            most,
        })
    }

    /// What the device has held, in order.
    pub fn entries(&self) -> &[usize]
        ensures { result.now ≡ self.now.entries.items }
    {
        self.entries.as_slice()
    }
}

impl TuneStore for RecordedStore {
    ghost use Rattle.std.specs.Prelude.{slice_index, length, pred};
    ghost use Rattle.std.proofs.Common.{ap, sym, subst, ◌∙◌};
    ghost use Rattle.std.proofs.Math.Nat.{le_antisymm, le_trans, le-pred_of_lt};
    ghost use Rattle.std.proofs.Math.Nat.{sub-suc, sub-zero};

    ghost state = { λ store. store.archive };

    ghost sound = { λ store. IsRecorded store.entries.items store.archive };

    ghost moment = { λ store. last_place store.entries.items };

    ghost left_since = { λ store. LeftSince store.entries.items };

    ghost stands_for = { IsOfCount };

    ghost settled = { λ store file sound honest is_open left.
        let entries = store.entries.items in
        let last = sub-suc (length entries) 0 ∙ ap pred (sub-zero (length entries)) in
        let within = subst (λ n. left.place ≤ n) (sym last) (le-pred_of_lt left.within) in
        left.entry
        ∙ ap (λ place. slice_index entries place ∷ []) (le_antisymm within left.from)
        ∙ ap (λ number. number ∷ []) sound.ends };

    ghost within = { λ store sound honest. sound.within };

    ghost since_at = { λ store at since file le left. absurd left };

    ghost since_earlier = { λ store since earlier file le left. record {
      place = left.place;
      from = le_trans le left.from;
      within = left.within;
      entry = left.entry;
    } };

    fn apply(&mut self, command: &Command) -> Result<Reply, Refusal> {
        if !asks(command) && self.entries.len() >= self.most {
            return Err(Refusal::OutOfMemory);
        }
        self.entries.reserve(1)?;
        let layout = self.archive.layout();
        let reply = self.archive.apply(command)?;
        if changes_nothing(layout, command) {
            return Ok(reply);
        }
        add_entry(&mut self.entries, self.archive.len());
        Ok(reply)
    }
}

// Adds an entry, for which there is room.
fn add_entry(entries: &mut Vec<usize>, entry: usize)
    requires { vec_len entries.old < vec_capacity entries.old }
    ensures entries { entries.new.items ≡ entries.old.items ++ entry ∷ [] }
    ensures len { vec_len entries.new ≡ vec_len entries.old + 1 }
    ensures capacity { vec_capacity entries.old ≤ vec_capacity entries.new }
{
    entries.push(entry).unwrap()
}
