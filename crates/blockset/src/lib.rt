// A set of the blocks of a card, one bit for each block.
#![tactic(auto)]

ghost use Rattle.std.specs.Prelude.{◌≡◌, ℕ, false};
ghost use Rattle.blockset.specs.Holds.{capacity, holds, counted, Inserted};

// How many blocks a set has room for: as many as a card has at most.
pub const CAPACITY: u32 = 4096;

// Bit b % 8 of byte b / 8 is 1 where the set holds block b. There is no Model: `bits` hands the bytes out as they are.
#[derive(Drop)]
pub struct BlockSet {
    bits: [u8; 512],
}

impl BlockSet {
    // The set that holds no block.
    pub fn new() -> BlockSet
        ensures { (b : ℕ) → holds result b ≡ false }
    {
        BlockSet { bits: [0; 512] }
    }

    // Takes every block out of the set.
    pub fn clear(&mut self)
        ensures { (b : ℕ) → holds self.new b ≡ false }
    {
        self.bits = [0; 512];
    }

    // Whether the set holds a block; it holds none that it has no room for.
    pub fn contains(&self, block: u32) -> bool
        ensures { result ≡ holds self.now block }
    {
        let byte = self.bits.get((block / 8) as usize);
        byte.is_some_and(|byte| (*byte >> (block % 8)) & 1 == 1)
    }

    // Puts a block into the set; one that there is no room for changes nothing.
    pub fn insert(&mut self, block: u32)
        ensures { Inserted self.old block self.new }
    {
        if block < CAPACITY {
            self.bits[(block / 8) as usize] |= 1 << (block % 8);
        }
    }

    // How many blocks the set holds.
    pub fn count(&self) -> u32
        ensures { result ≡ counted capacity (holds self.now) }
    {
        let mut held = 0;
        for block in 0..CAPACITY {
            if self.contains(block) {
                held += 1;
            }
        }
        held
    }

    // The bits themselves: bit b % 8 of byte b / 8 is that of block b.
    pub fn bits(&self) -> &[u8]
        ensures { result.now ≡ self.now.bits }
    {
        &self.bits[..]
    }
}

impl Default for BlockSet {
    ghost is_default = { λ s. (b : ℕ) → holds s b ≡ false };

    fn default() -> BlockSet {
        BlockSet::new()
    }
}
