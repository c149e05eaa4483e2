// The list of pairs as a table, a row for each pair in the order of the list, and what is looked for in it.
ghost use Rattle.std.specs.Prelude.{◌≡◌, not, ◌&&◌, ◌||◌, [], length, ◌==◌};
ghost use Rattle.blockset.specs.Holds.{holds};
ghost use Rattle.std.specs.List.{slice_get};
ghost use Rattle.std.specs.Option.{option_map};
ghost use Rattle.volume.specs.Rows.{find_row, find_pair, first_orphan};
ghost use Rattle.pairlist.specs.Rows.{row_for, rows_in};

use arrayvec::ArrayVec;
use blockset::BlockSet;
use pairs::Blocks;

// A pair of the list.
#[derive(Clone, Copy, Debug, Default, PartialEq, Eq)]
pub struct Row {
    // its blocks, as they were named
    pub pair: Blocks,
    // the block whose log counts
    pub block: u32,
    // how many entries it has
    pub count: u32,
    // whether its directory goes on in the next pair
    pub hard: bool,
    // the number of its directory, counted along the list from 0, the root
    pub dir: u32,
    // whether it is the first pair of its directory
    pub first: bool,
}

impl Row {
    // Whether it begins a directory, other than the root, whose number is not in the set.
    fn is_orphan(self, named: &BlockSet) -> bool
        ensures { result ≡ (self.first && not (self.dir == 0 || holds named.now self.dir)) }
    {
        self.first && !(self.dir == 0 || named.contains(self.dir))
    }
}

// A list has at most 2,048 pairs: a card has 4,096 blocks at most, and each pair has two of its own.
#[derive(Drop)]
pub struct PairList {
    pub(crate) rows: ArrayVec<Row, 2048>,
}

impl PairList {
    pub fn new() -> PairList
        ensures { rows_in result ≡ [] }
    {
        PairList {
            rows: ArrayVec::new(),
        }
    }

    // How many pairs the list has.
    pub fn count(&self) -> usize
        ensures { result ≡ length (rows_in self.now) }
    {
        self.rows.len()
    }

    // The row at a place of the list.
    pub fn row(&self, at: usize) -> Option<Row>
        ensures { option_map row_for result ≡ slice_get (rows_in self.now) at }
    {
        self.rows.get(at).copied()
    }

    // Where the directory is that begins with a pair of blocks.
    pub fn find_first(&self, pair: Blocks) -> Option<usize>
        ensures { result ≡ find_row (rows_in self.now) pair.first pair.second }
    {
        self.rows
            .iter()
            .position(|row| row.first && row.pair.is_same_pair(pair))
    }

    // Where the pair of two blocks is.
    pub fn find_pair(&self, pair: Blocks) -> Option<usize>
        ensures { result ≡ find_pair (rows_in self.now) pair.first pair.second }
    {
        self.rows.iter().position(|row| row.pair.is_same_pair(pair))
    }

    // The block of the log of the first directory, other than the root, whose number is not in the set.
    pub fn first_orphan(&self, named: &BlockSet) -> Option<u32>
        ensures { result ≡ first_orphan (holds named.now) (rows_in self.now) }
    {
        self.rows
            .iter()
            .find(|row| row.is_orphan(named))
            .map(|row| row.block)
    }
}
