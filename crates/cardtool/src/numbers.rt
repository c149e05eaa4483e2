// The numbers among a command's words.
ghost use Rattle.std.specs.Prelude.{◌≤◌, IfOk};

use anyhow::{anyhow, ensure};
use skiplist::BlockSize;

// A decimal number.
pub(crate) fn number(word: &str) -> anyhow::Result<u32> {
    word.parse()
        .map_err(|_| anyhow!("a number is decimal, and below 4294967296"))
}

// One of the four block sizes.
pub(crate) fn block_size(word: &str) -> anyhow::Result<BlockSize> {
    Ok(BlockSize::try_from(number(word)?)?)
}

// How many blocks a card may have.
pub(crate) fn block_count(word: &str) -> anyhow::Result<u32>
    ensures { IfOk result (λ n. (8 ≤ n) × (n ≤ 4096)) }
{
    let count = number(word)?;
    ensure!((8..=4096).contains(&count), "a card has 8 to 4096 blocks");
    Ok(count)
}
