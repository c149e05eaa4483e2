// The way from the last block of a file back to an earlier one.
ghost use Rattle.std.specs.Prelude.{◌≡◌, ℕ, ◌≤◌, List, Ok, slice_index};
ghost use Rattle.files.specs.Steps.{FileAt};

use crate::file::File;
use flash::ReadableDevice;
use skiplist::stride;
use volume::What;

impl<'a, D: ReadableDevice> File<'a, D> {
    // The block of the number `to` of the file: each step follows the word that leads farthest.
    pub(crate) fn seek(&self, to: u32) -> Result<u32, What>
        ensures { (bs : List ℕ) → FileAt (D.meaning self.now.device.now) bs self.now.head self.now.last → to ≤ self.now.last → result ≡ Ok (slice_index bs to) }
    {
        // A `while` and no `for`: how far a step goes back, its word says.
        let mut block = self.head;
        let mut from = self.last;
        while let Some(word) = stride(from, to) {
            block = self.word_at(block, 4 * word)?;
            from -= 1 << word;
        }
        Ok(block)
    }
}
