// An archive in a file as a store of tunes.
ghost use Rattle.std.specs.Prelude.{◌≡◌, ◌≢◌, ◌↔◌, true, false, not, IfOk, IfErr, IsErrOf};
ghost use Rattle.tune_pages.specs.Kept.{HonestAt, state_at, failures_at};
ghost use Rattle.tune_store.specs.Answers.{Answers, IsRefusalOf, passed, stays_open, may_write};
ghost use Rattle.tune_store.specs.Revisions.{RaisesReplaced};
ghost use Rattle.tune_store.specs.Step.{step};
ghost use Rattle.tune_store.specs.StoreStops.{HasFailed};
ghost use Rattle.tune_store.specs.Labels.{labels_of};
ghost use Rattle.tune_store.specs.Stores.{StorePasses, standing_of};
ghost use Rattle.tune_contents.specs.Holds.{labels_in};
ghost use Rattle.tune_contents.specs.Most.{enough_pages};
ghost use Rattle.tune_archive.specs.Media.{moment_of, UseFewerSince};
ghost use Rattle.tune_archive.specs.Shelf.{state_of};
ghost use Rattle.tune_archive.specs.Inside.Holding.{IsShelf};

use crate::archive::Archive;
use tune_contents::law_of_file_pages;
use tune_disk::Disk;
use tune_store::{Command, Plan, Refusal, Reply, TuneStore, decide};

impl<D: Disk> Archive<D> {
    // What always holds of an archive. It does nothing.
    fn holds(&self)
        ensures { IsShelf D.honest D.state self.now.pages self.now.contents self.now.closed }
    {
        // For the proof.
        let _closed = self.closed;
    }

    /// An open archive knows the label of each tune of its state, without reading a text, where its
    /// disk is honest: what it tells as a `Catalog` is that of its state. It does nothing.
    pub fn law_of_labels(&self)
        ensures { self.now.closed ≡ false → HonestAt D.honest self.now.pages.disk
            → labels_in self.now.contents.rows.items ≡ labels_of (state_of D.state self.now).tunes }
    {
        self.holds();
    }

    /// An open archive knows its set lists, where its disk is honest: what it tells as a `Catalog`
    /// are those of its state. It does nothing.
    pub fn law_of_sets(&self)
        ensures { self.now.closed ≡ false → HonestAt D.honest self.now.pages.disk
            → self.now.contents.sets ≡ (state_of D.state self.now).sets }
    {
        self.holds();
    }
}

impl<D: Disk> TuneStore for Archive<D> {
    ghost use Rattle.std.proofs.Common.{◌≤◌, sym, subst};
    ghost use Rattle.std.proofs.Math.Nat.{le_trans};
    ghost use Rattle.tune_disk.proofs.Moments.{left_by_present};
    ghost use Rattle.tune_pages.specs.Kept.{HonestAt, state_at, failures_at};
    ghost use Rattle.tune_format.specs.States.{Holds};
    ghost use Rattle.tune_archive.specs.Media.{LeftAt, LeftFrom, moment_of};
    ghost use Rattle.tune_archive.specs.Shelf.{state_of, IsSound};

    ghost state = { state_of D.Disk.state };

    ghost closed = { λ archive. archive.closed };

    ghost honest = { λ archive. HonestAt D.Disk.honest archive.pages.disk };

    ghost sound = { IsSound D.Disk.honest D.Disk.state };

    ghost failures = { λ archive. failures_at D.Disk.failures archive.pages.disk };

    ghost moment = { λ archive. moment_of (state_at D.Disk.state archive.pages.disk) };

    ghost left_at = { λ archive. LeftAt (state_at D.Disk.state archive.pages.disk) };

    ghost left_since = { λ archive. LeftFrom (state_at D.Disk.state archive.pages.disk) };

    ghost stands_for = { Holds };

    ghost settled = { λ archive file sound honest is_open left. sound.rest honest is_open file
        (left_by_present _ _ left.newer left.medium left.older file left.history left.later
        left.left) };

    ghost within = { λ archive sound honest. sound.within honest };

    ghost since_at = { λ archive at since file le left. record {
      newer = left.newer;
      medium = left.medium;
      older = left.older;
      history = left.history;
      later = subst (λ n. since ≤ n) (sym left.is_then) le;
      left = left.left;
    } };

    ghost since_earlier = { λ archive since earlier file le left. record {
      newer = left.newer;
      medium = left.medium;
      older = left.older;
      history = left.history;
      later = le_trans le left.later;
      left = left.left;
    } };

    /// No command is refused because the file is full: an archive uses few of the pages that there
    /// may be, and a change takes few of the others.
    ///
    /// - `together`: the file before a command, and what a stop leaves at any moment of it, have
    ///   together fewer than 640,684 pages in use in layout 1, and than 2,801,386 in layout 2.
    fn apply(&mut self, command: &Command) -> Result<Reply, Refusal>
        ensures answer { HonestAt D.honest self.new.pages.disk → Answers
            (standing_of ⟦<Archive<D> as TuneStore>⟧ self.old) command.now result
            (standing_of ⟦<Archive<D> as TuneStore>⟧ self.new) }
        ensures refused { IfErr result (λ refusal. refusal ≢ Refusal.Device
            → HonestAt D.honest self.new.pages.disk
            → state_of D.state self.new ≡ state_of D.state self.old) }
        ensures names { IfErr result (IsRefusalOf command.now) }
        ensures replaced { IfOk result (λ _. HonestAt D.honest self.new.pages.disk
            → RaisesReplaced command.now (state_of D.state self.old) (state_of D.state self.new)) }
        ensures closes { self.new.closed ≡ not (stays_open result) }
        ensures when_closed { IsErrOf result Refusal.Closed ↔ (self.old.closed ≡ true) }
        ensures idle { self.old.closed ≡ true → self.new ≡ self.old }
        ensures stops { StorePasses ⟦<Archive<D> as TuneStore>⟧
            self.old self.new (passed (state_of D.state self.old) command.now result) }
        ensures cause { HonestAt D.honest self.new.pages.disk → IsErrOf result Refusal.Device
            → HasFailed (failures_at D.failures self.old.pages.disk)
            (failures_at D.failures self.new.pages.disk) }
        ensures quiet { may_write command.now result ≡ false
            → HonestAt D.honest self.new.pages.disk
            → moment_of (state_at D.state self.new.pages.disk)
            ≡ moment_of (state_at D.state self.old.pages.disk) }
        ensures unchanged { (step (state_of D.state self.old) command.now).0
            ≡ state_of D.state self.old → HonestAt D.honest self.new.pages.disk
            → moment_of (state_at D.state self.new.pages.disk)
            ≡ moment_of (state_at D.state self.old.pages.disk) }
        ensures together { HonestAt D.honest self.new.pages.disk → self.old.closed ≡ false
            → UseFewerSince (enough_pages (state_of D.state self.old).layout)
            (state_at D.state self.old.pages.disk) (state_at D.state self.new.pages.disk) }
    {
        // For the proof.
        law_of_file_pages();
        if self.closed {
            return Err(Refusal::Closed);
        }
        let decided = decide(self.alloc, self, command);
        // For the proof.
        self.holds();
        let Plan { change, reply } = decided?;
        if let Some(change) = change {
            let made = self.make_change(change);
            // For the proof.
            self.holds();
            made?;
        }
        Ok(reply)
    }
}
