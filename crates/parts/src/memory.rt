// A board that keeps its card in memory: all blocks are good, and the power never goes.
// Its bytes, one block behind the other, are the image of its card. It hands each question on in one line, as the chip does: a
// trait over both would need every one of these lines too.
ghost use Rattle.std.specs.Prelude.{◌≡◌, true, replicate};
ghost use Rattle.std.proofs.lemmas.List.{length-replicate};
ghost use Rattle.parts.specs.Cells.{fresh, Makes};
ghost use Rattle.parts.specs.Memory.{card_of, ImageOf};
ghost use Rattle.parts.specs.Held.{held_shaped};

use crate::cells::Cells;
use crate::unmade::Unmade;
use flash::{ReadableDevice, Refusal, WritableDevice};
use std::alloc::Global;

#[derive(Drop)]
pub struct MemoryBoard {
    cells: Cells,
}

impl MemoryBoard {
    // An erased board. A size or a count of 0 is allowed: then every read of a byte and every write is outside.
    pub fn new(heap: Global, block_size: u32, block_count: u32) -> Result<MemoryBoard, Unmade>
        ensures { Makes block_size block_count (λ b. card_of b ≡ fresh block_size block_count (replicate block_count true)) result }
    {
        let cells = Cells::new(heap, block_size, block_count)?;
        Ok(MemoryBoard { cells })
    }

    // All the bytes, one block behind the other.
    pub fn bytes(&self) -> &[u8]
        ensures { ImageOf (card_of self.now) result.now }
    {
        self.cells.bytes()
    }
}

impl ReadableDevice for MemoryBoard {
    ghost meaning = { card_of };

    ghost shaped = { λ x. held_shaped x.cells _ _ (length-replicate _ _) };

    fn block_size(&self) -> u32 {
        self.cells.geometry.block_size
    }

    fn block_count(&self) -> u32 {
        self.cells.geometry.block_count
    }

    fn is_good(&self, block: u32) -> bool {
        block < self.cells.geometry.block_count
    }

    fn is_dark(&self) -> bool {
        false
    }

    fn read(&self, block: u32, at: u32, out: &mut [u8]) -> Result<(), Refusal> {
        self.cells.read(block, at, out)
    }
}

impl WritableDevice for MemoryBoard {
    fn program(&mut self, block: u32, at: u32, unit: &[u8]) -> Result<(), Refusal> {
        self.cells
            .check_program(self.is_good(block), block, at, unit)?;
        self.cells.put(block, at, unit);
        Ok(())
    }

    fn erase(&mut self, block: u32) -> Result<(), Refusal> {
        self.cells.check_erase(self.is_good(block), block)?;
        let size = self.cells.geometry.block_size;
        self.cells.erase_first(block, size);
        Ok(())
    }

    fn take_up(&mut self) {}
}
