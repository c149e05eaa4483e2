// A NOR chip for tests: some of its blocks are bad, and its power goes in a write that the test chooses, which is then
// torn at half. The struct stands alone here, since its promises are about definitions that name it.
ghost use Rattle.std.specs.Prelude.{◌≡◌, length};

mod device;
mod making;

use crate::cells::Cells;
use crate::power::Power;

// The cells, a mark for each block that says whether it is good, and the power.
#[derive(Drop)]
pub struct NorChip {
    cells: Cells,
    good: Vec<bool>,
    power: Power,
    ghost marked: { length good.items ≡ cells.geometry.block_count },
}
