// A file of a card that answers: the device, the size of its blocks, and where the file ends.
ghost use Rattle.std.specs.Prelude.{◌≡◌, ◌<◌, IfOk, MatchResult};
ghost use Rattle.skiplist.specs.Sizes.{bytes_of};
ghost use Rattle.skiplist.specs.Places.{block_limit};
ghost use Rattle.files.specs.Bytes.{refused_for};
ghost use Rattle.volume.specs.Sizes.{Fit, SizeTold};
ghost use Rattle.files.specs.Steps.{PartRead, WordAt, LastBlock};

use crate::card::last_block;
use flash::ReadableDevice;
use skiplist::BlockSize;
use volume::{What, card_size};

// A file whose last block is `head`, of the number `last`.
#[derive(Drop)]
pub(crate) struct File<'a, D: ReadableDevice> {
    pub(crate) device: &'a D,
    pub(crate) size: BlockSize,
    pub(crate) head: u32,
    pub(crate) last: u32,
    ghost fit: { Fit (D.meaning device.now) },
    ghost sized: { bytes_of size ≡ (D.meaning device.now).size },
    ghost short: { last < block_limit },
}

impl<'a, D: ReadableDevice> File<'a, D> {
    // The file of so many bytes whose last block is `head`; or why no such file is on the card. A struct for head and length
    // would only be made by a caller from the two numbers of an entry, and taken apart here.
    pub(crate) fn open(device: &'a D, head: u32, length: u32) -> Result<File<'a, D>, What>
        ensures device { IfOk result (λ file. file.device.now ≡ device.now) }
        ensures head { IfOk result (λ file. file.head ≡ head) }
        ensures opened { MatchResult result (λ file. SizeTold (D.meaning device.now) (Ok file.size) × LastBlock (bytes_of file.size) length (Some file.last)) (λ what. refused_for (D.meaning device.now) length ≡ Some what) }
    {
        let size = card_size(device)?;
        let last = last_block(size, length).ok_or(What::Tag)?;
        Ok(File {
            device,
            size,
            head,
            last,
        })
    }

    // Bytes of a block, from an offset on, into the whole of `out`.
    pub(crate) fn read_part(&self, block: u32, at: u32, out: &mut [u8]) -> Result<(), What>
        ensures { PartRead (D.meaning self.now.device.now) block at out.old result out.new }
    {
        self.device.read(block, at, out)?;
        Ok(())
    }

    // The word at an offset of a block.
    pub(crate) fn word_at(&self, block: u32, at: u32) -> Result<u32, What>
        ensures { WordAt (D.meaning self.now.device.now) block at result }
    {
        let mut word = [0; 4];
        self.read_part(block, at, &mut word)?;
        Ok(u32::from_le_bytes(word))
    }
}
