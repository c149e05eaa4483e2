// Two modelled parts for hosts and tests: a memory board that never goes dark, and a NOR chip that goes dark in a given
// write and tears it at half. Both hold their cells in one run of bytes, made at creation; no later call allocates.
#![tactic(auto)]

mod cells;
mod memory;
mod nor;
mod power;
mod unmade;

pub use memory::MemoryBoard;
pub use nor::NorChip;
pub use unmade::Unmade;
