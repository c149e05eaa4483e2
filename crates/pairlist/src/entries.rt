// The entries of a directory, pair by pair and id by id, but for the superblock and what is hidden.
ghost use Rattle.std.specs.Prelude.{◌≡◌, ◌≤◌};
ghost use Rattle.volume.specs.Check.{is_left};
ghost use Rattle.pairlist.specs.Entries.{hiding_for, NextId, NextEntry};
ghost use Rattle.pairlist.specs.Rows.{rows_in};

use crate::rows::PairList;

// An entry of the list: the place of its pair in the list, and its id.
#[derive(Clone, Copy, Debug, PartialEq, Eq)]
pub struct Spot {
    pub row: usize,
    pub id: u32,
}

// The superblock is the first entry of the root.
const SUPERBLOCK: Spot = Spot { row: 0, id: 0 };

// Whether an entry is none of the tree: the superblock, or what is hidden.
fn is_left(hidden: Option<Spot>, spot: Spot) -> bool
    ensures { result ≡ is_left (hiding_for hidden) spot.row spot.id }
{
    hidden == Some(spot) || spot == SUPERBLOCK
}

// The next id of a pair that is an entry of the tree.
fn next_id(hidden: Option<Spot>, row: usize, from: u32, count: u32) -> Option<u32>
    ensures { NextId (hiding_for hidden) row from count result }
{
    (from..count).find(|id| !is_left(hidden, Spot { row, id: *id }))
}

impl PairList {
    // The next entry of a directory, from a place in it on; None where it has no more.
    pub fn next_entry(&self, hidden: Option<Spot>, from: Spot) -> Option<Spot>
        ensures { NextEntry (hiding_for hidden) (rows_in self.now) from.row from.id result }
    {
        let mut id = from.id;
        for (place, row) in self.rows.iter().enumerate().skip(from.row) {
            if let Some(id) = next_id(hidden, place, id, row.count) {
                return Some(Spot { row: place, id });
            }
            if !row.hard {
                return None;
            }
            id = 0;
        }
        None
    }
}
