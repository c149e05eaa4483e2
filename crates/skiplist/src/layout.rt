// The layout of a file in its blocks: how many words a block begins with, where a place stands, how many blocks there are.
// Each function computes by a closed formula, and is proved to agree with the layout written out block after block.
ghost use Rattle.std.specs.Prelude.{◌≡◌, ◌<◌, ◌≤◌};
ghost use Rattle.skiplist.specs.Sizes.{bytes_of};
ghost use Rattle.skiplist.specs.Layout.{pointers_of, Words};
ghost use Rattle.skiplist.specs.Places.{file_limit, content_of, block_of, Locates, FirstPlace, BlocksFor};

use crate::size::BlockSize;

// How many bytes a file has at most.
pub const FILE_LIMIT: u32 = 1_048_576;

// How many blocks a file has at most, rounded up to a power of two.
pub const BLOCK_LIMIT: u32 = 4096;

// Where a place of a file stands: the block, and the byte in it.
#[derive(Clone, Copy, PartialEq, Eq, Debug)]
pub struct Location {
    pub block: u32,
    pub byte: u32,
}

// How many words block `index` of a file begins with.
pub fn pointers(index: u32) -> u32
    ensures is { result ≡ pointers_of index }
    ensures words { Words index result }
{
    if index == 0 {
        0
    } else {
        index.trailing_zeros() + 1
    }
}

// How many bytes of content a block has on average.
fn content(size: BlockSize) -> u32
    ensures is { result ≡ content_of (bytes_of size) }
    ensures least { 504 ≤ result }
    ensures most { result ≤ 4088 }
{
    size.bytes() - 8
}

// The block in which a place stands.
fn block_of(size: BlockSize, place: u32) -> u32
    requires { place < file_limit }
    ensures is { result ≡ block_of (bytes_of size) place }
{
    let content = content(size);
    let guess = place / content;
    if guess == 0 {
        return 0;
    }
    (place - 4 * ((guess - 1).count_ones() + 2)) / content
}

// Where a place of a file stands; None where no file has such a place.
pub fn locate(size: BlockSize, place: u32) -> Option<Location>
    ensures { Locates (bytes_of size) place result }
{
    if place >= FILE_LIMIT {
        return None;
    }
    let block = block_of(size, place);
    let byte = place - content(size) * block - 4 * block.count_ones();
    Some(Location { block, byte })
}

// The place of the first content byte of a block; None where no file has such a block.
pub fn first_place(size: BlockSize, block: u32) -> Option<u32>
    ensures { FirstPlace (bytes_of size) block result }
{
    if block >= BLOCK_LIMIT {
        return None;
    }
    if block == 0 {
        return Some(0);
    }
    Some(content(size) * block + 8 + 4 * (block - 1).count_ones())
}

// How many blocks a file of so many bytes has: as many as are there up to the one in which its last byte stands.
// None where no file has so many bytes.
pub fn blocks_for(size: BlockSize, bytes: u32) -> Option<u32>
    ensures { BlocksFor (bytes_of size) bytes result }
{
    if bytes == 0 {
        return Some(0);
    }
    let last = locate(size, bytes - 1)?;
    Some(last.block + 1)
}
