// The list of pairs of a card: the walk along the tails, and the table of rows that it leaves.
#![tactic(auto)]

mod desk;
mod entries;
mod rows;
mod visit;
mod walk;

pub use desk::Desk;
pub use entries::Spot;
pub use rows::{PairList, Row};
