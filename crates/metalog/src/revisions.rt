// The revision of a block: of the two blocks of a pair, the one with the newer revision counts.
ghost use Rattle.std.specs.Prelude.{◌≡◌};
ghost use Rattle.metalog.specs.Revision.{newer, following};

// No Ord: the order goes round, so of three revisions each may be newer than the next.
#[derive(Clone, Copy, PartialEq, Eq, Debug)]
pub struct Revision {
    pub word: u32,
}

impl Revision {
    // Whether this one is ahead of the other by less than half the way round.
    pub fn is_newer_than(self, other: Revision) -> bool
        ensures { result ≡ newer self.word other.word }
    {
        let ahead = self.word.wrapping_sub(other.word);
        (1..0x8000_0000).contains(&ahead)
    }

    // The revision of the block that is written next.
    pub fn following(self) -> Revision
        ensures { result.word ≡ following self.word }
    {
        Revision {
            word: self.word.wrapping_add(1),
        }
    }
}
