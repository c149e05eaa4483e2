// How a card is cut into blocks. What a device over one run of bytes needs of it is here, once: which requests lie on the
// card, and where in the run they lie.
ghost use Rattle.std.specs.Prelude.{◌≡◌, ◌+◌, ◌*◌, ◌&&◌, nat_le, nat_lt};

// So many blocks of so many bytes.
#[derive(Clone, Copy, PartialEq, Eq, Debug)]
pub struct Geometry {
    pub block_size: u32,
    pub block_count: u32,
}

impl Geometry {
    // Whether n bytes from an offset of a block on lie inside it.
    pub fn is_inside(self, block: u32, at: u32, n: usize) -> bool
        ensures { result ≡ (nat_lt block self.block_count && nat_le (at + n) self.block_size) }
    {
        block < self.block_count && at <= self.block_size && n <= (self.block_size - at) as usize
    }

    // Where the byte at an offset of a block lies, with the blocks one behind the other.
    pub fn place(self, block: u32, at: u32) -> usize
        ensures { result ≡ block * self.block_size + at }
    {
        block as usize * self.block_size as usize + at as usize
    }
}
