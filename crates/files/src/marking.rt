// Marks the blocks of a file in a set, from its last block back along the first words.
ghost use Rattle.std.specs.Prelude.{ℕ, ◌≤◌, List, length};
ghost use Rattle.skiplist.specs.Places.{block_limit};
ghost use Rattle.volume.specs.Marks.{Marks};
ghost use Rattle.files.specs.Steps.{Marked, Chained};

use crate::file::File;
use blockset::BlockSet;
use flash::ReadableDevice;
use volume::What;

impl<'a, D: ReadableDevice> File<'a, D> {
    // Puts a block of a file into the set, where it is good and serves nothing yet.
    fn mark(&self, used: &mut BlockSet, block: u32) -> Result<(), What>
        ensures { Marked (D.meaning self.now.device.now) used.old block result used.new }
    {
        if !self.device.is_good(block) {
            return Err(What::EntryBlock);
        }
        if used.contains(block) {
            return Err(What::BlockTwice);
        }
        used.insert(block);
        Ok(())
    }

    // Marks the blocks of the file, and stores them in their order.
    pub(crate) fn mark_chain(&self, used: &mut BlockSet, blocks: &mut [u32]) -> Result<(), What>
        requires { block_limit ≤ length blocks.old }
        ensures { (seen : List ℕ) → Marks used.old seen → Chained (D.meaning self.now.device.now) seen self.now.head self.now.last result used.new blocks.new }
    {
        let mut block = self.head;
        let mut index = self.last;
        // A `loop` and no `for`: it ends in its middle, since the first block has no word to follow.
        loop {
            self.mark(used, block)?;
            blocks[index as usize] = block;
            if index == 0 {
                return Ok(());
            }
            block = self.word_at(block, 0)?;
            index -= 1;
        }
    }
}
