// What is wrong with a card, and where: one definition tells the layer of each case, and another the number of each layer.
ghost use Rattle.std.specs.Prelude.{◌≡◌};
ghost use Rattle.volume.specs.Fault.{number_of, layer_of, reason_of, fault_of};
ghost use Rattle.volume.specs.Pair.{fault};

use flash::Refusal;

// What is wrong.
#[derive(Clone, Copy, PartialEq, Eq, Debug)]
pub enum What {
    // The device is dark.
    Dark,
    // The block size or the number of blocks is not one of a card.
    Size,
    // A block of the root pair is not good.
    RootBlock,
    // Neither block of a pair has a finished commit.
    NoCommit,
    // Both blocks of a pair have one, and neither revision is newer.
    NoNewer,
    // A tag that must not be there.
    Tag,
    // The superblock is not what it must be.
    Superblock,
    // A tail names a block outside the card, or one that is not good.
    TailBlock,
    // A tail names a block that is in the list already, or one block twice.
    TailTwice,
    // The entries of a pair are more than a block holds.
    TooFull,
    // The type bits of the global state are neither 0 nor those of a move.
    MoveBits,
    // The hidden entry is missing, or is the superblock.
    Hidden,
    // An entry or a file names a block outside the card, or one that is not good.
    EntryBlock,
    // A block of a file serves already.
    BlockTwice,
    // A word of a file's block does not name the block that it should.
    FileWord,
    // An entry lacks its name, or a struct that fits it.
    Entry,
    // A superblock where none may be.
    SuperblockElsewhere,
    // A name that does not come behind the one before it.
    NameOrder,
    // A name that breaks the rule for names.
    Name,
    // An entry more than eight names deep.
    Depth,
    // A directory entry that names the root, a directory named before, or none of the list.
    Directory,
    // A directory of the list without an entry, while the sync bit is 0.
    Orphan,
}

// Where the trouble lies.
#[derive(Clone, Copy, PartialEq, Eq, Debug)]
pub enum Layer {
    Device,
    Mount,
    Superblock,
    Log,
    List,
}

impl What {
    // The number of the fault: each layer has one.
    pub fn number(self) -> u8
        ensures { result ≡ number_of self }
    {
        match self.layer() {
            Layer::Device => 12,
            Layer::Mount => 13,
            Layer::Superblock => 14,
            Layer::Log => 15,
            Layer::List => 16,
        }
    }

    // Where the trouble lies.
    pub fn layer(self) -> Layer
        ensures { result ≡ layer_of self }
    {
        match self {
            What::Dark => Layer::Device,
            What::Size | What::RootBlock => Layer::Mount,
            What::Superblock => Layer::Superblock,
            What::NoCommit | What::NoNewer | What::Tag => Layer::Log,
            _ => Layer::List,
        }
    }

    // The fault of this kind that was met at a block and a byte.
    pub fn at(self, block: u32, byte: u32) -> Fault
        ensures { result ≡ fault self block byte }
    {
        Fault {
            what: self,
            block,
            byte,
        }
    }
}

// What a device's refusal says of the card: the device is dark, or there is no such block on it.
impl From<Refusal> for What {
    ghost from_gives = { λ x y. y ≡ reason_of x };

    fn from(refusal: Refusal) -> What {
        match refusal {
            Refusal::Dark => What::Dark,
            Refusal::Outside | Refusal::Bad | Refusal::Used => What::Size,
        }
    }
}

// The first fault of a card, with the block and the byte where it was met.
#[derive(Clone, Copy, PartialEq, Eq, Debug)]
pub struct Fault {
    pub what: What,
    pub block: u32,
    pub byte: u32,
}

// What a device refuses is a fault of the whole card: it has no block of its own.
impl From<Refusal> for Fault {
    ghost from_gives = { λ x y. y ≡ fault_of x };

    fn from(refusal: Refusal) -> Fault {
        What::from(refusal).at(0, 0)
    }
}
