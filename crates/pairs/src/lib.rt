// Reads one metadata pair from a device into a table of its entries, its tail and its move data.
#![tactic(auto)]

mod apply;
mod choice;
mod entry;
mod fold;
mod pair;
mod table;
mod tags;

pub use entry::{Blocks, Content, Entry, Kind, Moves, Name, Span, Tail};
pub use pair::PairReader;
