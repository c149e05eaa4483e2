// Whether the words of a file's blocks name the blocks that they should.
ghost use Rattle.std.specs.Prelude.{◌≡◌, ◌<◌, ◌≤◌, true, length, slice_index};
ghost use Rattle.volume.specs.Thread.{usable};
ghost use Rattle.volume.specs.Files.{word_fault};
ghost use Rattle.files.specs.Steps.{Told, block_fault, AllUsable};

use crate::file::File;
use flash::ReadableDevice;
use skiplist::pointers;
use volume::What;

impl<'a, D: ReadableDevice> File<'a, D> {
    // Checks the words of one block: word k of block i names block i - 2^k.
    fn check_block(&self, blocks: &[u32], index: u32) -> Result<(), What>
        requires { index < length blocks.now }
        ensures { usable (D.meaning self.now.device.now) (slice_index blocks.now index) ≡ true → Told (block_fault (D.meaning self.now.device.now) blocks.now index) result }
    {
        let block = blocks[index as usize];
        for word in 0..pointers(index) {
            let named = self.word_at(block, 4 * word)?;
            if named != blocks[(index - (1 << word)) as usize] {
                return Err(What::FileWord);
            }
        }
        Ok(())
    }

    // Checks the words of all blocks of a file.
    pub(crate) fn check_words(&self, blocks: &[u32]) -> Result<(), What>
        requires { length blocks.now ≤ 4096 }
        ensures { AllUsable (D.meaning self.now.device.now) blocks.now → Told (word_fault (D.meaning self.now.device.now) blocks.now) result }
    {
        for index in 0..blocks.len() as u32 {
            self.check_block(blocks, index)?;
        }
        Ok(())
    }
}
