// The check of one file: its blocks are good and serve nothing else, and their words name the blocks that they should.
ghost use Rattle.std.specs.Prelude.{◌≡◌, ℕ, List, replicate};
ghost use Rattle.volume.specs.Marks.{Marks};
ghost use Rattle.files.specs.Verdict.{FileChecked};

use crate::file::File;
use blockset::BlockSet;
use flash::ReadableDevice;
use volume::What;

// Room for the blocks of one file, in their order. An array and no ArrayVec: a file's blocks are met from the last one back.
#[derive(Drop)]
pub struct Trail {
    blocks: [u32; 4096],
}

impl Trail {
    // Room in which every place has the number 0, until a check of a file fills it.
    pub fn new() -> Trail
        ensures { result.blocks ≡ replicate 4096 0 }
    {
        Trail { blocks: [0; 4096] }
    }
}

// What is wrong with a file of so many bytes whose last block is `head`; if nothing is, its blocks are in use from now on. A struct
// for the two numbers would only be made of an entry's, and taken apart here.
pub fn check_file<D: ReadableDevice>(
    device: &D,
    used: &mut BlockSet,
    trail: &mut Trail,
    head: u32,
    length: u32,
) -> Result<(), What>
    ensures { (seen : List ℕ) → Marks used.old seen → FileChecked (D.meaning device.now) seen head length result used.new }
{
    let file = File::open(device, head, length)?;
    let blocks: &mut [u32] = &mut trail.blocks;
    file.mark_chain(used, blocks)?;
    file.check_words(&blocks[0..file.last as usize + 1])
}
