// A card as it lies in a run of bytes, one block behind the other: a device for reading only, over the caller's bytes.
// All its blocks are good, and its power never goes.
ghost use Rattle.std.specs.Prelude.{◌≡◌, length};
ghost use Rattle.flash.specs.Image.{Images, blocks_in, image_card};
ghost use Rattle.flash.specs.ImageCards.{image_shaped};

use super::{Geometry, ReadableDevice, Refusal};
use std::convert::AsSlice;

// The bytes are lent by a slice, or by whatever else a caller keeps a card's image in. How many blocks they have is found once,
// when the card is made.
#[derive(Drop)]
pub struct CardImage<B: AsSlice<u8>> {
    image: B,
    geometry: Geometry,
    ghost fits: { geometry.block_count ≡ blocks_in geometry.block_size (length (B.AsSlice.items image)) },
}

impl<B: AsSlice<u8> + Drop> CardImage<B> {
    // The card in these bytes, where they are a whole number of blocks of this size, of which there are fewer than 2^32.
    pub fn new(image: B, block_size: u32) -> Option<CardImage<B>>
        ensures { Images (λ i. image_card i.geometry.block_size (B.AsSlice.items i.image)) block_size (B.AsSlice.items image) result }
    {
        let total = image.as_slice().len();
        let size = block_size as usize;
        if size == 0 || total % size != 0 {
            return None;
        }
        let block_count = u32::try_from(total / size).ok()?;
        Some(CardImage {
            image,
            geometry: Geometry {
                block_size,
                block_count,
            },
        })
    }
}

impl<B: AsSlice<u8>> CardImage<B> {
    fn bytes(&self) -> &[u8]
        ensures { result.now ≡ B.AsSlice.items self.now.image }
    {
        self.image.as_slice()
    }
}

impl<B: AsSlice<u8>> ReadableDevice for CardImage<B> {
    ghost meaning = { λ i. image_card i.geometry.block_size (B.AsSlice.items i.image) };

    ghost shaped = { λ x. image_shaped _ _ };

    fn block_size(&self) -> u32 {
        self.geometry.block_size
    }

    fn block_count(&self) -> u32 {
        self.geometry.block_count
    }

    fn is_good(&self, block: u32) -> bool {
        block < self.geometry.block_count
    }

    fn is_dark(&self) -> bool {
        false
    }

    fn read(&self, block: u32, at: u32, out: &mut [u8]) -> Result<(), Refusal> {
        if !self.geometry.is_inside(block, at, out.len()) {
            return Err(Refusal::Outside);
        }
        let start = self.geometry.place(block, at);
        out.copy_from_slice(&self.bytes()[start..start + out.len()]);
        Ok(())
    }
}
