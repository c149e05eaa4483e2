// What a whole card holds: pairs, the list of pairs, the global state, the tree and its files, or the first fault.
#![tactic(auto)]

mod fault;
mod laws;
mod names;
mod paths;
mod size;

pub use fault::{Fault, Layer, What};
pub use laws::laws_hold;
pub use names::{NAME_LIMIT, is_name, precedes};
pub use paths::{DEPTH_LIMIT, PathNames, Place, parse_path};
pub use size::card_size;
