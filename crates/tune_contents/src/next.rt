// What a change of an archive leads to, in memory.
ghost use Rattle.std.specs.Prelude.{◌≡◌};
ghost use Rattle.tune_contents.specs.Holds.{memory_of};
ghost use Rattle.tune_contents.specs.Next.{FitsRows, memory_after, rows_after};

use crate::contents::Contents;
use crate::room::Room;
use std::mem;
use tiered_vector::TieredVector;
use tune_format::{Firsts, Row};
use tune_index::Index;
use tune_search::SearchIndexes;
use tune_sets::SetLists;
use tune_store::Layout;

/// What a change makes of the rows of an archive.
#[derive(Drop)]
pub enum RowChange {
    /// They stay.
    Stay,
    /// These come, behind the others. There is room for them.
    Add(Vec<Row>),
    /// A row takes the place of the one there.
    Put {
        /// Where that stands.
        place: usize,
        /// The new one.
        row: Row,
    },
    /// The row at a place goes.
    Take {
        /// Where it stands.
        place: usize,
    },
    /// The row at a place goes, and then another one comes.
    Move {
        /// Where the one stands that goes.
        place: usize,
        /// Where the other one comes, among those that are left.
        to: usize,
        /// The one that comes.
        row: Row,
    },
    /// These are all rows then.
    Whole(Vec<Row>),
}

/// What is to be kept in memory of an archive once the edit of a change is finished. The rows are
/// told by what becomes of those before it, so that a change of one tune copies no others.
#[derive(Drop)]
pub struct Next {
    /// The layout.
    pub layout: Layout,
    /// What becomes of the rows.
    pub rows: RowChange,
    /// The index of numbers.
    pub numbers: Index<32>,
    /// The search indexes.
    pub searches: SearchIndexes,
    /// The set lists.
    pub sets: SetLists,
    /// Where the chains begin that the root names.
    pub firsts: Firsts,
}

// Makes a change of rows. Memory of theirs that is left over goes into the room.
fn change_rows(rows: &mut TieredVector<Row>, room: &mut Room, change: RowChange)
    requires { FitsRows change rows.old.items rows.old.room }
    ensures { rows.new.items ≡ rows_after change rows.old.items }
{
    match change {
        RowChange::Stay => {}
        RowChange::Add(more) => rows.append(&more),
        RowChange::Put { place, row } => rows.put(place, row),
        RowChange::Take { place } => {
            rows.remove(place);
        }
        RowChange::Move { place, to, row } => {
            // For the proof: there is room for as many rows as there are.
            let _room = rows.capacity();
            rows.remove(place);
            rows.insert(to, row);
        }
        RowChange::Whole(all) => room.keep_rows(mem::replace(rows, TieredVector::from(all))),
    }
}

impl Contents {
    /// Becomes what a change leads to, once its edit is finished. It takes no memory: what is left
    /// over goes into the room, for later changes.
    pub fn accept(&mut self, room: &mut Room, next: Next)
        requires { FitsRows next.rows self.old.rows.items self.old.rows.room }
        ensures { memory_of self.new ≡ memory_after next self.old }
    {
        change_rows(&mut self.rows, room, next.rows);
        self.layout = next.layout;
        room.keep_numbers(mem::replace(&mut self.numbers, next.numbers));
        room.keep_searches(mem::replace(&mut self.searches, next.searches));
        self.sets = next.sets;
        self.firsts = next.firsts;
    }
}
