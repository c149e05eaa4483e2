// Making a NOR chip, and choosing the write in which its power goes.
// A chip is made with a list of its bad blocks; nothing that it is asked later makes a block bad or good.
ghost use Rattle.std.specs.Prelude.{◌≡◌, true, length, replicate, IfOk};
ghost use Rattle.parts.specs.Cells.{fresh, Makes};
ghost use Rattle.parts.specs.Chip.{chip, good_but};
ghost use Rattle.parts.specs.Nor.{state_of};

use super::NorChip;
use crate::cells::Cells;
use crate::power::Power;
use crate::unmade::Unmade;
use std::alloc::{AllocError, Global};

// Marks the listed blocks as bad; numbers past the last block name none. One pass over the list: it may be of any length.
fn mark_bad(good: &mut [bool], bad: &[u32])
    requires { good.old ≡ replicate (length good.old) true }
    ensures { good.new ≡ good_but (length good.old) bad.now }
{
    for block in bad {
        let block = *block as usize;
        if block < good.len() {
            good[block] = false;
        }
    }
}

// The marks of blocks that are all good but for those listed.
fn marks(heap: Global, count: u32, bad: &[u32]) -> Result<Vec<bool>, AllocError>
    ensures { IfOk result (λ v. v.items ≡ good_but count bad.now) }
{
    let mut good = Vec::from_elem(heap, true, count as usize)?;
    mark_bad(&mut good, bad);
    Ok(good)
}

impl NorChip {
    // An erased chip on which the listed blocks are bad, and which will not go dark. Numbers past the last block are
    // ignored. A size or a count of 0 is allowed: then every read of a byte and every write is outside.
    pub fn new(
        heap: Global,
        block_size: u32,
        block_count: u32,
        bad: &[u32],
    ) -> Result<NorChip, Unmade>
        ensures { Makes block_size block_count (λ x. state_of x ≡ chip (fresh block_size block_count (good_but block_count bad.now)) 0) result }
    {
        let cells = Cells::new(heap, block_size, block_count)?;
        let good = marks(heap, block_count, bad)?;
        Ok(NorChip {
            cells,
            good,
            power: Power::default(),
        })
    }

    // From now on the power goes in that write which is not refused, counted from 1; 0: it stays.
    pub fn go_dark_at(&mut self, write: u32)
        ensures { state_of self.new ≡ chip (state_of self.old).card write }
    {
        self.power.choose(write);
    }

    // In which of the writes to come the power goes, counted from 1; 0 where it stays.
    pub fn writes_left(&self) -> u32
        ensures { result ≡ (state_of self.now).left }
    {
        self.power.left
    }
}
