// A table of the entries of one pair. A block of at most 4,096 bytes makes at most 2,047 of them: a name's id asks for at
// most 1,024, and each tag that inserts one more takes four bytes.
mod edits;

use crate::entry::{Entry, Moves, Tail};
use arrayvec::ArrayVec;

// The entries by id, the tail and the move data.
#[derive(Drop)]
pub(crate) struct Table {
    pub(crate) entries: ArrayVec<Entry, 2048>,
    pub(crate) tail: Option<Tail>,
    pub(crate) moves: Option<Moves>,
}
