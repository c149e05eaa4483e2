// Where the bytes of a file stand in its blocks, and how its blocks are reached from its last one.
// A file is a skip list: block 0 is all content, and any other block begins with words that name blocks before it.
// Arithmetic only: a layer above reads the blocks.
#![tactic(auto)]

mod laws;
mod layout;
mod size;
mod walk;

pub use laws::{known_places, one_location, places_follow, walks_end};
pub use layout::{BLOCK_LIMIT, FILE_LIMIT, Location, blocks_for, first_place, locate, pointers};
pub use size::{BlockSize, WrongSize};
pub use walk::stride;
