// What bench/log.c times against a plain C loop: the checksum and the reader of metalog, as functions that C can call.
// Each takes a pointer and a length, and gives a number that tells whether the work was done right.
#![tactic(auto)]

ghost use Rattle.std.specs.Prelude.{◌≡◌, ◌%◌, ◌^◌, length};
ghost use Rattle.metalog.specs.Crc.{crc_of};
ghost use Rattle.metalog.specs.Log.{items_of, log_of};
ghost use Rattle.metalog.specs.Reader.{item_of};
ghost use Rattle.metalog_bench.specs.Total.{weight_of, total_of};

use metalog::{Item, LogReader, Survey, crc};

// The checksum of bytes, from where a commit's starts.
#[unsafe(no_mangle)]
pub extern "C" fn metalog_crc(bytes: &[u8]) -> u32
    ensures { result ≡ crc_of 0xffffffff bytes.now }
{
    crc(0xffff_ffff, bytes)
}

// How many commits of a block are finished.
#[unsafe(no_mangle)]
pub extern "C" fn metalog_commits(block: &[u8]) -> usize
    ensures { result ≡ length (log_of block.now).commits }
{
    Survey::of(block).commits
}

// What an item of a log adds to the total.
fn weight(item: Item<'_>) -> u64
    ensures { result ≡ weight_of (item_of item.entry) % 2 ^ 64 }
{
    match item {
        Item::Held(entry) => {
            (u64::from(entry.kind) + u64::from(entry.id)).wrapping_add(entry.data.len() as u64)
        }
        Item::Ended(end) => u64::from(end.id),
    }
}

// The total of all that a reader gives of a block: types, ids and lengths, and the ids of the tags that end commits.
#[unsafe(no_mangle)]
pub extern "C" fn metalog_total(block: &[u8]) -> u64
    ensures { result ≡ total_of (items_of block.now) % 2 ^ 64 }
{
    LogReader::new(block).fold(0, |total, item| total.wrapping_add(weight(item)))
}
