// The walk from a block of a file back to an earlier one: which word of a block to follow.
// Word k of block i names block i - 2^k. A walk follows the word that goes farthest without passing its goal.
ghost use Rattle.skiplist.specs.Strides.{Strides};

// Which word of block `from` to follow on the way to block `to`; None where `to` is not before `from`.
pub fn stride(from: u32, to: u32) -> Option<u32>
    ensures { Strides from to result }
{
    if to >= from {
        return None;
    }
    let farthest = 31 - (from - to).leading_zeros();
    Some(farthest.min(from.trailing_zeros()))
}
