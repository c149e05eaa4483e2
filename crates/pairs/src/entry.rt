// What a pair holds, as it is kept: names and inline files stay in the block, and are kept as the place where they stand.
ghost use Rattle.std.specs.Prelude.{◌≡◌};
ghost use Rattle.volume.specs.Global.{same_blocks};

use std::ops::BitXor;

// Two blocks, as they are named where they make a pair.
#[derive(Clone, Copy, Debug, Default, PartialEq, Eq)]
pub struct Blocks {
    pub first: u32,
    pub second: u32,
}

impl Blocks {
    // The pair that the list begins with.
    pub const ROOT: Blocks = Blocks {
        first: 0,
        second: 1,
    };

    // What a tail names where the list ends: no block has this number.
    pub const NOWHERE: Blocks = Blocks {
        first: 0xffff_ffff,
        second: 0xffff_ffff,
    };

    // Whether two pairs are one, in either order.
    pub fn is_same_pair(self, other: Blocks) -> bool
        ensures { result ≡ same_blocks self.first self.second other.first other.second }
    {
        let turned = Blocks {
            first: other.second,
            second: other.first,
        };
        self == other || self == turned
    }
}

// A place in the block: where its bytes begin, and how many there are.
#[derive(Clone, Copy, Debug, Default, PartialEq, Eq)]
pub struct Span {
    pub at: u32,
    pub length: u32,
}

// What a name is the name of.
#[derive(Clone, Copy, Debug, PartialEq, Eq)]
pub enum Kind {
    File,
    Directory,
    Superblock,
}

// A name, by the place of its bytes.
#[derive(Clone, Copy, Debug, PartialEq, Eq)]
pub struct Name {
    pub kind: Kind,
    pub span: Span,
}

// What stands behind a name: a directory's first pair, the place of an inline file's bytes, or the last block and the size
// of a skip-list file.
#[derive(Clone, Copy, Debug, PartialEq, Eq)]
pub enum Content {
    Pair(Blocks),
    Inline(Span),
    SkipList { head: u32, size: u32 },
}

// An entry, of which either part may be missing. By default nothing is known of it yet.
#[derive(Clone, Copy, Debug, Default, PartialEq, Eq)]
pub struct Entry {
    pub name: Option<Name>,
    pub content: Option<Content>,
}

// The pair that a tail names, in the same directory where it is hard.
#[derive(Clone, Copy, Debug, PartialEq, Eq)]
pub struct Tail {
    pub hard: bool,
    pub pair: Blocks,
}

// The move data of a pair: by default there are none, and all three words are 0.
#[derive(Clone, Copy, Debug, Default, PartialEq, Eq)]
pub struct Moves {
    pub word: u32,
    pub pair: Blocks,
}

// The move data of two pairs together: word by word, XORed.
impl BitXor for Moves {
    ghost use Rattle.volume.specs.Global.{mixed};
    ghost use Rattle.pairs.specs.Slots.{moves_of};

    type Output = Moves;

    ghost bitxor_gives = { λ m n r. moves_of r ≡ mixed (moves_of m) (moves_of n) };

    fn bitxor(self, other: Moves) -> Moves {
        Moves {
            word: self.word ^ other.word,
            pair: Blocks {
                first: self.pair.first ^ other.pair.first,
                second: self.pair.second ^ other.pair.second,
            },
        }
    }
}
