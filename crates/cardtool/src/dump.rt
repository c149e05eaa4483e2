// Shows the log of one block: its revision, and each commit with its tags.
use crate::files::read_file;
use crate::numbers::{block_size, number};
use anyhow::{Context, bail, ensure};
use flash::{CardImage, ReadableDevice, is_erased};
use metalog::{End, Entry, Item, LogReader, Survey};
use std::io;

// What a tag of this type is, in words. A log may hold a tag of any type, so the type stays a number.
fn kind_name(kind: u32) -> &'static str {
    match kind {
        0x001 => "file name",
        0x002 => "directory name",
        0x0ff => "superblock name",
        0x200 => "directory struct",
        0x201 => "inline struct",
        0x202 => "skip-list struct",
        0x401 => "insert",
        0x4ff => "remove",
        0x600 => "soft tail",
        0x601 => "hard tail",
        0x7ff => "move data",
        _ => "unknown type",
    }
}

// One line of at most 16 bytes: in hex, and as text where a byte is a printing character.
fn show_bytes(rt: &HostRuntime, bytes: &[u8]) -> io::Result<()> {
    print!(rt; "           ")?;
    for byte in bytes {
        print!(rt; " {:02x}", *byte)?;
    }
    for _ in bytes.len()..16 {
        print!(rt; "   ")?;
    }
    print!(rt; "  |")?;
    for byte in bytes {
        let shown = match *byte {
            b' '..=b'~' => char::from(*byte),
            _ => '.',
        };
        print!(rt; "{shown}")?;
    }
    println!(rt; "|")
}

fn show_entry(rt: &HostRuntime, entry: &Entry<'_>) -> io::Result<()> {
    let name = kind_name(entry.kind);
    let length = entry.data.len();
    println!(rt;
        "  {:#06x}  {name} ({:#05x}), id {:#x}, length {length}",
        entry.offset, entry.kind, entry.id
    )?;
    for line in entry.data.chunks(16) {
        show_bytes(rt, line)?;
    }
    Ok(())
}

fn show_end(rt: &HostRuntime, end: &End) -> io::Result<()> {
    println!(rt;
        "  {:#06x}  end of commit, id {:#x}, at {:#06x}",
        end.tag, end.id, end.offset
    )
}

// The tags of the finished commits, of which there is one at least, up to the offset at which the last of them ends.
fn show_commits(rt: &HostRuntime, block: &[u8], last: usize) -> io::Result<()> {
    let mut commit: u32 = 1;
    println!(rt; "commit {commit}")?;
    for item in LogReader::new(block) {
        match item {
            Item::Held(entry) => show_entry(rt, &entry)?,
            Item::Ended(end) => {
                show_end(rt, &end)?;
                if end.offset >= last {
                    break;
                }
                commit = commit.saturating_add(1);
                println!(rt; "commit {commit}")?;
            }
        }
    }
    Ok(())
}

fn show_log(rt: &HostRuntime, block: &[u8]) -> io::Result<()> {
    let Survey {
        revision,
        commits,
        end,
    } = Survey::of(block);
    if commits == 0 {
        return if is_erased(block) {
            println!(rt; "erased: no commit")
        } else {
            println!(rt; "no finished commit: the log is empty")
        };
    }
    println!(rt; "revision {revision}, finished commits: {commits}")?;
    show_commits(rt, block, end.offset)?;
    let Some(rest) = block.get(end.offset..) else {
        return Ok(());
    };
    let left = rest.len();
    let kind = if is_erased(rest) {
        "all 0xff"
    } else {
        "not all 0xff"
    };
    println!(rt; "behind the log: {left} bytes, {kind}")
}

// The command `log FILE B BLOCK`.
pub(crate) fn show_block(rt: &HostRuntime, words: &[String]) -> anyhow::Result<()> {
    let [_, file, size, block] = words else {
        bail!("write it as: log FILE B BLOCK");
    };
    let size = block_size(size.as_str())?.bytes();
    let block = number(block.as_str())?;
    let bytes = read_file(rt, file.as_str())?;
    let image = CardImage::new(bytes.as_slice(), size).context(
        "the image is no whole number of blocks of this size",
    )?;
    let mut content = vec![in rt.alloc(); 0u8; size as usize]?;
    let count = image.block_count();
    ensure!(
        image.read(block, 0, content.as_mut_slice()).is_ok(),
        "the image has {count} blocks, counted from 0"
    );
    println!(rt; "block {block} of {file}")?;
    show_log(rt, content.as_slice())?;
    Ok(())
}
