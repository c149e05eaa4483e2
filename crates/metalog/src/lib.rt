// The log of one metadata block, as bytes: its checksum, its tags, a reader, and a writer of commits. It knows no device.
#![tactic(auto)]

mod checksum;
mod laws;
mod reader;
mod revisions;
mod tags;
mod writer;

pub use checksum::crc;
pub use laws::laws_hold;
pub use reader::{End, Entry, Item, LogReader, Survey};
pub use revisions::Revision;
pub use writer::{CommitWriter, Part, Unwritable, write_first, write_next};
