// One pair of the list: it is read, and judged where it stands.
ghost use Rattle.std.specs.Prelude.{◌≡◌, ℕ, List};
ghost use Rattle.std.specs.Option.{option_map};
ghost use Rattle.pairs.specs.Pairs.{state_in};
ghost use Rattle.pairs.specs.Slots.{tail_of};
ghost use Rattle.volume.specs.Check.{hardly};
ghost use Rattle.volume.specs.Marks.{Marks};
ghost use Rattle.volume.specs.Thread.{next_of, tail_fault};
ghost use Rattle.pairlist.specs.Visits.{Fit, next_for, hard_for, ok_unless, fault_in, Visits};

use blockset::BlockSet;
use flash::ReadableDevice;
use pairs::{Blocks, Moves, PairReader, Tail};
use volume::{Fault, What};

// How many bytes of a block are no room for entries: the revision, tail and move data, and the end of a commit.
const OVERHEAD: usize = 40;

// What the walk keeps of a pair.
#[derive(Clone, Copy, Debug, PartialEq, Eq)]
pub(crate) struct Visit {
    // the block whose log counts
    pub block: u32,
    // how many entries it has
    pub count: u32,
    // the tail that leads to the next pair
    pub next: Option<Tail>,
    // its move data, 0 where it has none
    pub moves: Moves,
}

// The tail that leads on: None where the list ends.
fn next_of(tail: Option<Tail>) -> Option<Tail>
    ensures next { next_for result ≡ next_of (option_map tail_of tail) }
    ensures hard { hard_for result ≡ hardly (option_map tail_of tail) }
{
    tail.filter(|tail| tail.pair != Blocks::NOWHERE)
}

// Where a tail leads must be two blocks that are there and good, and serve nothing yet.
fn check_next<D: ReadableDevice>(
    device: &D,
    used: &BlockSet,
    next: Option<Tail>,
) -> Result<(), What>
    ensures { (seen : List ℕ) → Marks used.now seen → result ≡ ok_unless (tail_fault (D.meaning device.now) seen (next_for next)) }
{
    let Some(Tail { pair, .. }) = next else {
        return Ok(());
    };
    if !(device.is_good(pair.first) && device.is_good(pair.second)) {
        return Err(What::TailBlock);
    }
    if used.contains(pair.first) || used.contains(pair.second) || pair.first == pair.second {
        return Err(What::TailTwice);
    }
    Ok(())
}

// What is wrong with a pair that was read, besides its log: where its tail leads, then how much it holds.
fn check_pair<D: ReadableDevice>(
    device: &D,
    used: &BlockSet,
    pairs: &PairReader,
) -> Result<(), What>
    ensures { (seen : List ℕ) → Marks used.now seen → result ≡ ok_unless (fault_in (D.meaning device.now) seen (state_in pairs.now)) }
{
    check_next(device, used, next_of(pairs.tail()))?;
    if pairs.size() > (device.block_size() as usize).saturating_sub(OVERHEAD) {
        return Err(What::TooFull);
    }
    Ok(())
}

// Reads a pair of the list, where the blocks in the set serve already.
pub(crate) fn read_next<D: ReadableDevice>(
    device: &D,
    pairs: &mut PairReader,
    used: &BlockSet,
    pair: Blocks,
) -> Result<Visit, Fault>
    requires { Fit (D.meaning device.now) pair.first pair.second }
    ensures { (seen : List ℕ) → Marks used.now seen → Visits (D.meaning device.now) seen pair.first pair.second result }
{
    let block = pairs.read(device, pair)?;
    check_pair(device, used, pairs).map_err(|what| what.at(block, 0))?;
    Ok(Visit {
        block,
        count: pairs.count() as u32,
        next: next_of(pairs.tail()),
        moves: pairs.moves().unwrap_or_default(),
    })
}
