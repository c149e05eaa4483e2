// What the type of a tag says, and data that are two words.
ghost use Rattle.std.specs.Prelude.{◌≡◌};
ghost use Rattle.pairs.specs.Changes.{Decodes, two_words};

use crate::entry::Kind;

// What a type of tag does.
#[derive(Clone, Copy, Debug, PartialEq, Eq)]
pub(crate) enum Effect {
    Inserts,
    Removes,
    Names(Kind),
    Points,
    Holds,
    Skips,
    Tails { hard: bool },
    Moves,
}

// A tag that must not be there: its type is not known, or its length, its id or its size is none that it may have.
#[derive(Clone, Copy, Debug, PartialEq, Eq)]
pub(crate) struct Misplaced;

// What a tag of this type does.
impl TryFrom<u32> for Effect {
    type Error = Misplaced;

    ghost try_from_gives = { Decodes };

    #[tactic(auto, unfolding(volume::specs::State::effect_of))]
    fn try_from(kind: u32) -> Result<Self, Misplaced> {
        match kind {
            0x401 => Ok(Effect::Inserts),
            0x4ff => Ok(Effect::Removes),
            0x001 => Ok(Effect::Names(Kind::File)),
            0x002 => Ok(Effect::Names(Kind::Directory)),
            0x0ff => Ok(Effect::Names(Kind::Superblock)),
            0x200 => Ok(Effect::Points),
            0x201 => Ok(Effect::Holds),
            0x202 => Ok(Effect::Skips),
            0x600 => Ok(Effect::Tails { hard: false }),
            0x601 => Ok(Effect::Tails { hard: true }),
            0x7ff => Ok(Effect::Moves),
            _ => Err(Misplaced),
        }
    }
}

// Eight bytes as two words.
pub(crate) fn two_words(bytes: &[u8]) -> Result<[u32; 2], Misplaced>
    ensures { result ≡ two_words bytes.now }
{
    let ([first, second], []) = bytes.as_chunks::<4>() else {
        return Err(Misplaced);
    };
    Ok([u32::from_le_bytes(*first), u32::from_le_bytes(*second)])
}
