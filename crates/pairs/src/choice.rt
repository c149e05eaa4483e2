// Which of the two blocks of a pair counts.
ghost use Rattle.std.specs.Prelude.{◌≡◌, ◌==◌};
ghost use Rattle.metalog.specs.Revision.{newer};
ghost use Rattle.volume.specs.Pair.{chosen};
ghost use Rattle.pairs.specs.Pairs.{side_for};

use metalog::{Revision, Survey};
use volume::What;

// One of the two blocks.
#[derive(Clone, Copy, Debug, PartialEq, Eq)]
pub(crate) enum Side {
    First,
    Second,
}

// The block that counts by what the two logs are in short; or what is wrong: none has a finished commit, or both have one and
// neither is newer.
pub(crate) fn choose(first: Survey, second: Survey) -> Result<Side, What>
    ensures { result ≡ side_for (chosen (first.commits == 0) (second.commits == 0) (newer first.revision second.revision) (newer second.revision first.revision)) }
{
    let p = Revision {
        word: first.revision,
    };
    let q = Revision {
        word: second.revision,
    };
    match (first.commits == 0, second.commits == 0) {
        (true, true) => Err(What::NoCommit),
        (false, true) => Ok(Side::First),
        (true, false) => Ok(Side::Second),
        (false, false) if p.is_newer_than(q) => Ok(Side::First),
        (false, false) if q.is_newer_than(p) => Ok(Side::Second),
        (false, false) => Err(What::NoNewer),
    }
}
