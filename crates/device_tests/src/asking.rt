// What several tests ask of a device, and the units that they send.
// Most parts of the tests have blocks of 64 bytes, four units each.
use flash::{ReadableDevice, Refusal};
use std::process::Abort;
use std::test::Fail;

// A unit as an erase leaves it, two that are sent, and the first of them torn at half.
pub const ERASED: [u8; 16] = [0xff; 16];

pub const SENT: [u8; 16] = *b"sixteen bytes ..";

pub const OTHER: [u8; 16] = *b".. and sixteen !";

pub const TORN: [u8; 16] = *b"sixteen \xff\xff\xff\xff\xff\xff\xff\xff";

// The 16 bytes at an offset of a block.
pub(crate) fn unit_at<D: ReadableDevice>(
    device: &D,
    block: u32,
    at: u32,
) -> Result<[u8; 16], Refusal> {
    let mut unit = [0; 16];
    device.read(block, at, &mut unit)?;
    Ok(unit)
}

// That a block of four units is these.
pub(crate) fn block_is<D: ReadableDevice>(
    rt: &impl Abort,
    device: &D,
    block: u32,
    units: [[u8; 16]; 4],
) -> Result<(), Fail> {
    for (at, unit) in [0, 16, 32, 48].iter().zip(units.iter()) {
        assert_eq!(rt; unit_at(device, block, *at)?, *unit);
    }
    Ok(())
}
