// Laws of runs of requests, each as the promise of a small function, so that it is proved with the crate.
// They are for proofs: no program needs to call these functions.
ghost use Rattle.std.specs.Prelude.{◌≡◌};
ghost use Rattle.flash.specs.Cuts.{Leaves};
ghost use Rattle.flash.specs.Joins.{Joins};

use super::WritableDevice;

// Outcomes that follow one another join to the outcome of the whole, at the histories of any three states of a device.
// The answer is how many joins there are.
pub fn joins_hold<D: WritableDevice>(before: &D, between: &D, after: &D) -> u8
    ensures joins { result ≡ 5 }
    ensures law { Joins (D.history before.now) (D.history between.now) (D.history after.now) }
{
    5
}

// Where the power goes while a content is put into a block, whole units stand there up to one, that unit in part, and
// behind it what was there; nothing else changed. The answer is in how many units at most the two may be mixed.
pub fn cuts_hold<D: WritableDevice>(before: &D, after: &D) -> u8
    ensures units { result ≡ 1 }
    ensures law { Leaves (D.history before.now) (D.history after.now) }
{
    1
}
