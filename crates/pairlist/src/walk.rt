// The walk of the whole list, from the root along the tails.
ghost use Rattle.std.specs.Prelude.{◌≡◌, suc, ◌<◌, if◌then◌else◌};
ghost use Rattle.pairlist.specs.Walks.{Enters, Ready, Marked, Walks};

use crate::rows::{PairList, Row};
use crate::visit::read_next;
use blockset::BlockSet;
use flash::ReadableDevice;
use pairs::{Blocks, Moves, PairReader};
use volume::{Fault, What, card_size};

// What is wrong with a card before anything is read of it.
fn enter<D: ReadableDevice>(device: &D) -> Result<(), Fault>
    ensures { Enters (D.meaning device.now) result }
{
    card_size(device).map_err(|what| what.at(0, 0))?;
    if !device.is_good(Blocks::ROOT.first) {
        return Err(What::RootBlock.at(Blocks::ROOT.first, 0));
    }
    if !device.is_good(Blocks::ROOT.second) {
        return Err(What::RootBlock.at(Blocks::ROOT.second, 0));
    }
    Ok(())
}

// The number of the directory of the next pair.
fn next_dir(dir: u32, hard: bool) -> u32
    requires { dir < 4096 }
    ensures { result ≡ (if hard then dir else suc dir) }
{
    if hard { dir } else { dir + 1 }
}

// Both blocks of a pair serve from now on.
fn mark(used: &mut BlockSet, pair: Blocks)
    ensures { Marked used.old pair used.new }
{
    used.insert(pair.first);
    used.insert(pair.second);
}

// Follows the tails from the root on, a row for each pair. Device, pairs, list and set stay four parameters: three of them are
// lent for writing, and a struct of them would have each method name its lenders.
fn follow<D: ReadableDevice>(
    device: &D,
    pairs: &mut PairReader,
    list: &mut PairList,
    used: &mut BlockSet,
) -> Result<Moves, Fault>
    requires { Ready (D.meaning device.now) list.old used.old }
    ensures { Walks (D.meaning device.now) result list.new used.new }
{
    // A `loop` and no `for`: where the list ends is known when its last pair has been read.
    let mut pair = Blocks::ROOT;
    let mut dir = 0;
    let mut first = true;
    let mut global = Moves::default();
    loop {
        let visit = read_next(device, pairs, used, pair)?;
        let hard = visit.next.is_some_and(|tail| tail.hard);
        list.rows.push(Row {
            pair,
            block: visit.block,
            count: visit.count,
            hard,
            dir,
            first,
        });
        global = global ^ visit.moves;
        let Some(tail) = visit.next else {
            return Ok(global);
        };
        mark(used, tail.pair);
        pair = tail.pair;
        first = !hard;
        dir = next_dir(dir, hard);
    }
}

impl PairList {
    // Lists the pairs of a card: a row for each, and its blocks in the set. The answer is the global state, or the first fault.
    pub fn walk<D: ReadableDevice>(
        &mut self,
        device: &D,
        pairs: &mut PairReader,
        used: &mut BlockSet,
    ) -> Result<Moves, Fault>
        ensures { Walks (D.meaning device.now) result self.new used.new }
    {
        enter(device)?;
        used.clear();
        mark(used, Blocks::ROOT);
        self.rows.clear();
        follow(device, pairs, self, used)
    }
}
