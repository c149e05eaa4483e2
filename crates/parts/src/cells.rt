// The cells of a part: all blocks in one run of bytes. What both parts do with them is here, once.
// The checks take whether the block is good, since only the part knows that; they speak of a card that is not dark.
ghost use Rattle.std.specs.Prelude.{◌≡◌, ◌+◌, ◌*◌, ◌%◌, ◌<◌, ◌≤◌, Bool, false, ◌&&◌, List, [], length, replicate, OnOk, ◌==◌, nat_le, nat_lt, slice_index_or};
ghost use Rattle.std.proofs.Math.Seq.{paste};

use crate::unmade::Unmade;
use flash::{Geometry, Refusal, is_erased};
use std::alloc::Global;

// The bytes of all the blocks, and how they are cut into blocks.
#[derive(Drop)]
pub struct Cells {
    bytes: Vec<u8>,
    pub geometry: Geometry,
    ghost small: { geometry.block_size ≤ 4096 },
    ghost few: { geometry.block_count ≤ 4096 },
    ghost whole: { length bytes.items ≡ geometry.block_count * geometry.block_size },
}

// Puts a part into the run of bytes.
fn put_part(bytes: &mut [u8], at: usize, part: &[u8])
    requires { at + length part.now ≤ length bytes.old }
    ensures { bytes.new ≡ paste bytes.old at part.now (length part.now) }
{
    bytes[at..at + part.len()].copy_from_slice(part);
}

// Sets n bytes of the run to 0xff.
fn erase_part(bytes: &mut [u8], at: usize, n: usize)
    requires { at + n ≤ length bytes.old }
    ensures { bytes.new ≡ paste bytes.old at (replicate n 0xff) n }
{
    bytes[at..at + n].fill(0xff);
}

impl Cells {
    ghost use Rattle.flash.specs.Device.{Checks, Reads};
    ghost use Rattle.flash.specs.Write.{program, erase, part as part_of, refusal};
    ghost use Rattle.parts.specs.Cells.{blocks_held, card_held, IsInside, Makes, Rewrites};

    // Erased cells. A size or a count of 0 makes cells of no bytes.
    pub fn new(heap: Global, size: u32, count: u32) -> Result<Cells, Unmade>
        ensures { Makes size count (λ x. (x.geometry ≡ record { block_size = size; block_count = count }) × (x.bytes.items ≡ replicate (count * size) 0xff)) result }
    {
        if size > 4096 || count > 4096 {
            return Err(Unmade::Size);
        }
        let bytes = Vec::from_elem(heap, 0xff, count as usize * size as usize)?;
        Ok(Cells {
            bytes,
            geometry: Geometry {
                block_size: size,
                block_count: count,
            },
        })
    }

    // The whole run of bytes.
    pub fn bytes(&self) -> &[u8]
        ensures { result.now ≡ self.now.bytes.items }
    {
        &self.bytes
    }

    // Whether n bytes at an offset of a block are a unit: 16 bytes at a multiple of 16, inside the block.
    fn is_unit(&self, block: u32, at: u32, n: usize) -> bool
        ensures { result ≡ (nat_lt block self.now.geometry.block_count && (n == 16 && (at % 16 == 0 && nat_le (at + 16) self.now.geometry.block_size))) }
    {
        n == 16 && at % 16 == 0 && self.geometry.is_inside(block, at, 16)
    }

    // The n bytes from an offset of a block on.
    fn part(&self, block: u32, at: u32, n: usize) -> &[u8]
        requires { IsInside self.now.geometry block at n }
        ensures value { result.now ≡ part_of (slice_index_or (blocks_held self.now) block []) at n }
        ensures len { length result.now ≡ n }
    {
        let start = self.geometry.place(block, at);
        let bytes: &[u8] = &self.bytes;
        &bytes[start..start + n]
    }

    // Bytes of one block into the whole of `out`.
    pub fn read(&self, block: u32, at: u32, out: &mut [u8]) -> Result<(), Refusal>
        ensures { (good : List Bool) → Reads (card_held self.now good false) block at out.old result out.new }
    {
        if !self.geometry.is_inside(block, at, out.len()) {
            return Err(Refusal::Outside);
        }
        out.copy_from_slice(self.part(block, at, out.len()));
        Ok(())
    }

    // Why a program is refused, on a card of these cells that is not dark and on which the block is good or not.
    pub fn check_program(
        &self,
        is_good: bool,
        block: u32,
        at: u32,
        unit: &[u8],
    ) -> Result<(), Refusal>
        ensures why { (good : List Bool) → slice_index_or good block false ≡ is_good → Checks (refusal (card_held self.now good false) (program block at unit.now)) result }
        ensures inside { OnOk result (IsInside self.now.geometry block at 16 × (length unit.now ≡ 16)) }
    {
        if !self.is_unit(block, at, unit.len()) {
            return Err(Refusal::Outside);
        }
        if !is_good {
            return Err(Refusal::Bad);
        }
        if !is_erased(self.part(block, at, 16)) {
            return Err(Refusal::Used);
        }
        Ok(())
    }

    // Why an erase is refused, on a card of these cells that is not dark and on which the block is good or not.
    pub fn check_erase(&self, is_good: bool, block: u32) -> Result<(), Refusal>
        ensures why { (good : List Bool) → slice_index_or good block false ≡ is_good → Checks (refusal (card_held self.now good false) (erase block)) result }
        ensures inside { OnOk result (block < self.now.geometry.block_count) }
    {
        if block >= self.geometry.block_count {
            return Err(Refusal::Outside);
        }
        if !is_good {
            return Err(Refusal::Bad);
        }
        Ok(())
    }

    // Puts a part into one block, from an offset on.
    pub fn put(&mut self, block: u32, at: u32, part: &[u8])
        requires { IsInside self.old.geometry block at (length part.now) }
        ensures { Rewrites self.old block (λ old. paste old at part.now (length part.now)) self.new }
    {
        let start = self.geometry.place(block, at);
        put_part(&mut self.bytes, start, part);
    }

    // Sets the first n bytes of one block to 0xff.
    pub fn erase_first(&mut self, block: u32, n: u32)
        requires { IsInside self.old.geometry block 0 n }
        ensures { Rewrites self.old block (λ old. paste old 0 (replicate n 0xff) n) self.new }
    {
        let start = self.geometry.place(block, 0);
        erase_part(&mut self.bytes, start, n as usize);
    }
}
