// The size of a card's blocks: the first thing that is asked of a card.
ghost use Rattle.volume.specs.Sizes.{SizeTold};

use crate::fault::What;
use flash::ReadableDevice;
use skiplist::BlockSize;

// The size of a card's blocks, where the card is not dark and is one.
pub fn card_size<D: ReadableDevice>(device: &D) -> Result<BlockSize, What>
    ensures { SizeTold (D.meaning device.now) result }
{
    if device.is_dark() {
        return Err(What::Dark);
    }
    if !(8..=4096).contains(&device.block_count()) {
        return Err(What::Size);
    }
    BlockSize::try_from(device.block_size()).map_err(|_| What::Size)
}
