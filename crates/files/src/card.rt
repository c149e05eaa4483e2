// The number of a file's last block.
ghost use Rattle.skiplist.specs.Sizes.{bytes_of};
ghost use Rattle.files.specs.Steps.{LastBlock};

use skiplist::{BlockSize, locate};

// The number of the last block of a file of so many bytes; None where no file has so many.
pub(crate) fn last_block(size: BlockSize, bytes: u32) -> Option<u32>
    ensures { LastBlock (bytes_of size) bytes result }
{
    let place = bytes.checked_sub(1)?;
    let last = locate(size, place)?;
    Some(last.block)
}
