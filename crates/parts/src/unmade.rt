// The errors of the two constructors. A part may have up to 4,096 blocks of up to 4,096 bytes; any smaller size is
// allowed, 0 among them, also one that a store on the part would refuse.
ghost use Rattle.std.specs.Prelude.{◌≡◌};
ghost use Rattle.parts.specs.declared.unmade.Unmade.TheVariants.{Memory};

use std::alloc::AllocError;
use thiserror::Error;

// Why a part could not be made.
#[derive(Clone, Copy, PartialEq, Eq, Debug, Error)]
pub enum Unmade {
    // There is not enough memory for its cells.
    #[error("not enough memory for the card")]
    Memory,
    // It would have more than 4,096 blocks, or more than 4,096 bytes a block.
    #[error("the card is too large")]
    Size,
}

impl From<AllocError> for Unmade {
    ghost from_gives = { λ _ e. e ≡ Memory };

    fn from(_: AllocError) -> Unmade {
        Unmade::Memory
    }
}
