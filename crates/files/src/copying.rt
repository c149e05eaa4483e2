// Copies content of a file, block by block.
ghost use Rattle.std.specs.Prelude.{ℕ, suc, ◌+◌, ◌≤◌, List, length};
ghost use Rattle.skiplist.specs.Layout.{start_of};
ghost use Rattle.skiplist.specs.Places.{file_limit};
ghost use Rattle.skiplist.specs.Sizes.{bytes_of};
ghost use Rattle.files.specs.Steps.{FileAt, Copied};

use crate::file::File;
use flash::ReadableDevice;
use skiplist::locate;
use volume::What;

impl<'a, D: ReadableDevice> File<'a, D> {
    // Fills `out` with content of the file from a place on. Each block is reached from the file's last block.
    pub(crate) fn copy(&self, place: u32, out: &mut [u8]) -> Result<(), What>
        requires { place + length out.old ≤ file_limit }
        ensures { (bs : List ℕ) → FileAt (D.meaning self.now.device.now) bs self.now.head self.now.last → place + length out.old ≤ start_of (bytes_of self.now.size) (suc self.now.last) → Copied (D.meaning self.now.device.now) bs place out.old result out.new }
    {
        let mut done = 0;
        // A `while` and no `for`: each turn copies as many bytes as its block has.
        while done < out.len() {
            let location = locate(self.size, place + done as u32).ok_or(What::Size)?;
            let block = self.seek(location.block)?;
            let rest = (self.size.bytes() - location.byte) as usize;
            let end = done + rest.min(out.len() - done);
            self.read_part(block, location.byte, &mut out[done..end])?;
            done = end;
        }
        Ok(())
    }
}
