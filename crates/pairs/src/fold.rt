// The tags of the finished commits of a block, one after the other, made into a table.
ghost use Rattle.std.specs.Prelude.{◌≡◌, ◌<◌, ◌≤◌, [], length, IfErr};
ghost use Rattle.metalog.specs.Log.{commits_of, items_of};
ghost use Rattle.pairs.specs.Folds.{Folds};

use crate::apply::{NO_ID, apply};
use crate::table::Table;
use metalog::{Item, LogReader};

// What the finished commits of a block, of which there are `commits`, make of an empty table; or the offset of the first
// tag that must not be there. What stands behind the last finished commit is not looked at.
pub(crate) fn fold(block: &[u8], commits: usize, table: &mut Table) -> Result<(), usize>
    requires { (length block.now ≤ 4096) × (commits ≡ length (commits_of [] (items_of block.now))) }
    ensures made { Folds block.now result table.new }
    ensures inside { IfErr result (λ at. at < 4096) }
{
    table.clear();
    if commits == 0 {
        return Ok(());
    }
    // The commits are counted down: a tag counts while a commit is still to end behind it, and `left` are still to end.
    let mut left = commits;
    for item in LogReader::new(block) {
        match item {
            Item::Held(entry) => apply(table, entry).map_err(|_| entry.offset)?,
            Item::Ended(end) if end.id as usize != NO_ID => return Err(end.tag),
            Item::Ended(_) => left -= 1,
        }
        // Nothing is asked of the reader behind the last finished commit.
        if left == 0 {
            break;
        }
    }
    Ok(())
}
