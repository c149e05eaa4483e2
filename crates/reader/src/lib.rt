// Reads a whole card: whether it is sound, and what it holds.
#![tactic(auto)]

mod judge;
mod last;
