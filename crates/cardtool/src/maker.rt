// Makes the image of an empty card: the superblock in the root pair, everything else erased.
ghost use Rattle.std.specs.Prelude.{◌≡◌};
ghost use Rattle.cardtool.specs.Empty.{superblock_bytes, superblock_entry, Emptied};
ghost use Rattle.metalog.specs.Laws.{first_bytes};

use crate::files::write_file;
use crate::numbers::{block_count, block_size};
use anyhow::{anyhow, bail};
use flash::{ReadableDevice, Refusal, WritableDevice, write_block};
use metalog::{Part, write_first};
use parts::MemoryBoard;

// The superblock's six words: version 2.0, block size, block count, longest name, largest file, largest attribute.
fn superblock(size: u32, count: u32) -> [u8; 24]
    ensures { result ≡ superblock_bytes size count }
{
    let [b0, b1, b2, b3] = size.to_le_bytes();
    let [n0, n1, n2, n3] = count.to_le_bytes();
    [
        0, 0, 2, 0, b0, b1, b2, b3, n0, n1, n2, n3, 64, 0, 0, 0, 0, 0, 16, 0, 0xfe, 0x03, 0, 0,
    ]
}

// What the first block of an empty card's root pair begins with: revision 1 and one commit with the superblock.
fn root_content(size: u32, count: u32) -> [u8; 64]
    ensures { result ≡ first_bytes 1 (superblock_entry size count) }
{
    let words = superblock(size, count);
    let parts = [
        Part {
            kind: 0x0ff,
            id: 0,
            bytes: b"littlefs",
        },
        Part {
            kind: 0x201,
            id: 0,
            bytes: &words,
        },
    ];
    let mut content = [0xff; 64];
    let _ = write_first(&mut content, 1, &parts);
    content
}

// Writes the root pair of an empty card: the second block is erased first, so that no older log is left in it.
fn write_root<D: WritableDevice>(device: &mut D) -> Result<(), Refusal>
    ensures { Emptied (D.ReadableDevice.meaning device.old) result (D.ReadableDevice.meaning device.new) }
{
    let content = root_content(device.block_size(), device.block_count());
    write_block(device, 1, &[])?;
    write_block(device, 0, &content)
}

// The command `new FILE B N`.
pub(crate) fn make_card(rt: &HostRuntime, words: &[String]) -> anyhow::Result<()> {
    let [_, file, size, count] = words else {
        bail!("write it as: new FILE B N");
    };
    let size = block_size(size.as_str())?.bytes();
    let count = block_count(count.as_str())?;
    let mut board = MemoryBoard::new(rt.alloc(), size, count)?;
    write_root(&mut board).map_err(|refusal| anyhow!(
        "the card refused a write with {}",
        refusal.number()
    ))?;
    write_file(rt, file.as_str(), board.bytes())?;
    println!(rt;
        "{file}: an empty card of {count} blocks of {size} bytes; the superblock is in block 0, revision 1"
    )?;
    Ok(())
}
