// The blocks and the bytes of a file: a check of its blocks, and reads from any place of it.
#![tactic(auto)]

mod card;
mod checking;
mod copying;
mod file;
mod marking;
mod naming;
mod reading;
mod seeking;

pub use checking::{Trail, check_file};
pub use reading::read_file;
