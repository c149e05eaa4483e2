// The size of a block: one of four numbers of bytes.
// A number that a card gives is checked once, by `try_from`; from then on its type says that it is one of the four.
ghost use Rattle.std.specs.Prelude.{◌≡◌, ◌≤◌};
ghost use Rattle.skiplist.specs.Sizes.{bytes_of, SizeOf};

use thiserror::Error;

#[derive(Clone, Copy, PartialEq, Eq, Debug)]
pub enum BlockSize {
    Bytes512,
    Bytes1024,
    Bytes2048,
    Bytes4096,
}

// A number of bytes that is not the size of a block.
#[derive(Clone, Copy, PartialEq, Eq, Debug, Error)]
#[error("the block size is 512, 1024, 2048 or 4096")]
pub struct WrongSize(pub u32);

// The size that has so many bytes; an error where no size has.
impl TryFrom<u32> for BlockSize {
    type Error = WrongSize;

    ghost try_from_gives = { SizeOf };

    fn try_from(bytes: u32) -> Result<BlockSize, WrongSize> {
        match bytes {
            512 => Ok(BlockSize::Bytes512),
            1024 => Ok(BlockSize::Bytes1024),
            2048 => Ok(BlockSize::Bytes2048),
            4096 => Ok(BlockSize::Bytes4096),
            _ => Err(WrongSize(bytes)),
        }
    }
}

impl BlockSize {
    // How many bytes a block of this size has. A method and no `From`, since the name says what is counted.
    pub fn bytes(self) -> u32
        ensures is { result ≡ bytes_of self }
        ensures least { 512 ≤ result }
        ensures most { result ≤ 4096 }
    {
        match self {
            BlockSize::Bytes512 => 512,
            BlockSize::Bytes1024 => 1024,
            BlockSize::Bytes2048 => 2048,
            BlockSize::Bytes4096 => 4096,
        }
    }
}
