// Writing more than one unit: the units of a content upward through a block, and a whole block anew.
// Each call is refused before its first write where that can be known, and else stops at the first write that is refused
// or in which the power goes.
ghost use Rattle.std.specs.Prelude.{◌≡◌, ◌+◌, ◌%◌, ◌^◌, ◌<◌, length, OnOk};
ghost use Rattle.flash.specs.Device.{Checks};
ghost use Rattle.flash.specs.Runs.{Runs, Tried, programs, unfit};
ghost use Rattle.flash.specs.Contents.{Pasted, TakesFree, WroteBlock, rewrites};

use super::{ReadableDevice, Refusal, WritableDevice};

// The unit of every program: this many bytes, at a multiple of this offset.
pub const UNIT: usize = 16;

// Programs the units of `content` upward through a block, from the offset `at` on. Where the card is dark, or the content is
// no whole number of units that fit behind the offset, nothing is asked of the device.
pub fn program_units<D: WritableDevice>(
    device: &mut D,
    block: u32,
    at: u32,
    content: &[u8],
) -> Result<(), Refusal>
    ensures asked { Tried at (length content.now) (programs block at content.now) (D.ReadableDevice.meaning device.old) result (D.ReadableDevice.meaning device.new) (D.history device.old) (D.history device.new) }
    ensures holds { Pasted (D.ReadableDevice.meaning device.old) block at content.now result (D.ReadableDevice.meaning device.new) }
    ensures free { TakesFree (D.ReadableDevice.meaning device.old) block at content.now result (D.ReadableDevice.meaning device.new) (D.history device.old) (D.history device.new) }
{
    check_fits(device, at, content.len())?;
    program_each(device, block, at, content)
}

// Gives a block a new content: erases it, and programs the units of `content` upward from its start. Behind the content the
// block is then 0xff. Where the card is dark, or the content is no whole number of units or longer than a block, or the
// block takes no erase, nothing is changed.
pub fn write_block<D: WritableDevice>(
    device: &mut D,
    block: u32,
    content: &[u8],
) -> Result<(), Refusal>
    ensures asked { Tried 0 (length content.now) (rewrites block content.now) (D.ReadableDevice.meaning device.old) result (D.ReadableDevice.meaning device.new) (D.history device.old) (D.history device.new) }
    ensures wrote { WroteBlock (D.ReadableDevice.meaning device.old) block content.now result (D.ReadableDevice.meaning device.new) (D.history device.old) (D.history device.new) }
{
    check_fits(device, 0, content.len())?;
    device.erase(block)?;
    program_each(device, block, 0, content)
}

// Why writing so many bytes behind an offset is refused before any write is asked: the card is dark, or they are no whole
// number of units that fit into a block.
fn check_fits<D: ReadableDevice>(device: &D, at: u32, count: usize) -> Result<(), Refusal>
    ensures why { Checks (unfit (D.meaning device.now) at count) result }
    ensures below { OnOk result (at + count < 2 ^ 32) }
{
    if device.is_dark() {
        return Err(Refusal::Dark);
    }
    let size = device.block_size() as usize;
    if count % UNIT != 0 || count > size || at as usize > size - count {
        return Err(Refusal::Outside);
    }
    Ok(())
}

// Programs the units of a content upward from an offset, which fits: the loop of the calls above.
fn program_each<D: WritableDevice>(
    device: &mut D,
    block: u32,
    at: u32,
    content: &[u8],
) -> Result<(), Refusal>
    requires content_len { length content.now % 16 ≡ 0 }
    requires content_bound { at + length content.now < 2 ^ 32 }
    ensures { Runs (programs block at content.now) (D.ReadableDevice.meaning device.old) result (D.ReadableDevice.meaning device.new) (D.history device.old) (D.history device.new) }
{
    for (index, unit) in content.chunks_exact(UNIT).enumerate() {
        device.program(block, at + (UNIT * index) as u32, unit)?;
    }
    Ok(())
}
