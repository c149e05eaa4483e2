// Writes one commit into the caller's buffer, entry by entry, and then its end: a value that is spent by `finish`, so
// that an entry behind the end of a commit does not compile.
ghost use Rattle.std.specs.Prelude.{◌≡◌, ◌+◌, ◌<◌, ◌≤◌, map, length, take, nat_le};
ghost use Rattle.std.specs.List.{AllByRecursion};
ghost use Rattle.std.specs.Option.{ok_or};
ghost use Rattle.metalog.specs.Crc.{crc_of};
ghost use Rattle.metalog.specs.Log.{first_prior, seed};
ghost use Rattle.metalog.specs.Writer.{tag_for, Put, Begun, Puts, Ends, piece_of, Writes, WritesFirst};

use crate::checksum::{SEED, crc};

// Why an entry or the end of a commit is not written.
#[derive(Clone, Copy, PartialEq, Eq, Debug)]
pub enum Unwritable {
    // The type, the id or the length does not fit a tag, or the type is one that a torn ending tag could be taken for.
    BadTag,
    // The buffer is too short.
    NoRoom,
}

// An entry to be written. Its type stays a number, as in the entries that are read.
#[derive(Clone, Copy, PartialEq, Eq, Debug)]
pub struct Part<'a> {
    pub kind: u32,
    pub id: u32,
    pub bytes: &'a [u8],
}

impl Part<'_> {
    // The tag of the entry, if it can be written.
    fn tag(&self) -> Result<u32, Unwritable>
        ensures { result ≡ ok_or (tag_for self.now.kind self.now.id (length self.now.bytes.now)) Unwritable.BadTag }
    {
        let length = self.bytes.len();
        if self.kind < 0x800 && self.kind / 16 != 0x50 && self.id < 0x400 && length < 0x400 {
            Ok(self.kind * 0x10_0000 + self.id * 0x400 + length as u32)
        } else {
            Err(Unwritable::BadTag)
        }
    }
}

// A commit that is being written: no Drop, so it ends in `finish` or in `abandon`. Each method says for itself that it keeps
// the buffer that was lent: a fact about two states, which no ghost field can hold.
pub struct CommitWriter<'a> {
    buffer: &'a mut [u8],
    used: usize,
    prior: u32,
}

impl<'a> CommitWriter<'a> {
    // The first commit of a block, behind the revision word, which its checksum covers.
    pub fn first(buffer: &'a mut [u8], revision: u32) -> CommitWriter<'a>
        ensures state { (result.used ≡ 4) × (result.prior ≡ first_prior) }
        ensures lender { result.buffer.ghost_name ≡ buffer.entry.ghost_name }
        ensures buffer { Begun buffer.old revision result.buffer.now }
    {
        if buffer.len() >= 4 {
            buffer[..4].copy_from_slice(&revision.to_le_bytes());
        }
        CommitWriter {
            buffer,
            used: 4,
            prior: 0xffff_ffff,
        }
    }

    // A commit behind others: its first tag is XORed with `prior`.
    pub fn next(buffer: &'a mut [u8], prior: u32) -> CommitWriter<'a>
        ensures state { (result.used ≡ 0) × (result.prior ≡ prior) }
        ensures lender { result.buffer.ghost_name ≡ buffer.entry.ghost_name }
        ensures buffer { result.buffer.now ≡ buffer.old }
    {
        CommitWriter {
            buffer,
            used: 0,
            prior,
        }
    }

    // Whether the buffer has room for `count` bytes behind what is used of it.
    fn has_room(&self, count: usize) -> bool
        ensures { result ≡ nat_le (self.now.used + count) (length self.now.buffer.now) }
    {
        self.used <= self.buffer.len() && count <= self.buffer.len() - self.used
    }

    // Writes bytes behind what is used of the buffer.
    fn append(&mut self, bytes: &[u8])
        requires { self.old.used + length bytes.now ≤ length self.old.buffer.now }
        ensures lender { self.new.buffer.ghost_name ≡ self.old.buffer.ghost_name }
        ensures buffer { Put self.old.buffer.now self.new.buffer.now self.old.used bytes.now }
        ensures state { (self.new.used ≡ self.old.used + length bytes.now) × (self.new.prior ≡ self.old.prior) }
        ensures small { AllByRecursion (λ x. x < 256) bytes.now }
    {
        let end = self.used + bytes.len();
        self.buffer[self.used..end].copy_from_slice(bytes);
        self.used = end;
    }

    // The checksum of what is used of the buffer.
    fn sum(&self) -> u32
        requires { self.now.used ≤ length self.now.buffer.now }
        ensures { result ≡ crc_of seed (take self.now.used self.now.buffer.now) }
    {
        crc(SEED, &self.buffer[..self.used])
    }

    // One entry more, behind those that are there: its tag, XORed with the one before it, and its data.
    pub fn put(&mut self, part: Part<'_>) -> Result<(), Unwritable>
        ensures lender { self.new.buffer.ghost_name ≡ self.old.buffer.ghost_name }
        ensures writes { Puts self.old.buffer.now self.old.used self.old.prior (piece_of part.entry) result self.new.buffer.now self.new.used self.new.prior }
    {
        let tag = part.tag()?;
        if !self.has_room(4 + part.bytes.len()) {
            return Err(Unwritable::NoRoom);
        }
        self.append(&(tag ^ self.prior).to_be_bytes());
        self.append(part.bytes);
        self.prior = tag;
        Ok(())
    }

    // The ending tag, the checksum, and 0xff up to a multiple of 16.
    fn end(&mut self) -> Result<usize, Unwritable>
        ensures lender { self.new.buffer.ghost_name ≡ self.old.buffer.ghost_name }
        ensures ends { Ends self.old.buffer.now self.old.used self.old.prior result self.new.buffer.now }
    {
        let pad = (16 - (self.used % 16 + 8) % 16) % 16;
        if !self.has_room(8 + pad) {
            return Err(Unwritable::NoRoom);
        }
        let tag = 0x500f_fc04 + pad as u32;
        self.append(&(tag ^ self.prior).to_be_bytes());
        self.append(&self.sum().to_le_bytes());
        self.append(&[0xff; 16][..pad]);
        Ok(self.used)
    }

    // The entries, up to the first that is refused, and behind all of them the end.
    fn put_all(&mut self, parts: &[Part<'_>]) -> Result<usize, Unwritable>
        ensures lender { self.new.buffer.ghost_name ≡ self.old.buffer.ghost_name }
        ensures writes { Writes self.old.buffer.now self.old.used self.old.prior (map piece_of parts.now) result self.new.buffer.now }
    {
        for part in parts {
            self.put(*part)?;
        }
        self.end()
    }

    // The end of the commit: its ending tag, its checksum, and 0xff up to a multiple of 16, which is where it ends.
    pub fn finish(self) -> Result<usize, Unwritable>
        ensures { Ends self.entry.buffer.now self.entry.used self.entry.prior result self.exit.0.now }
    {
        // It is taken apart and put together again: what a borrow of `self` leaves in the buffer is not known at the return.
        let CommitWriter {
            buffer,
            used,
            prior,
        } = self;
        let mut writer = CommitWriter {
            buffer,
            used,
            prior,
        };
        let end = writer.end();
        writer.abandon();
        end
    }

    // Gives the commit up; what is written of it stays in the buffer.
    pub fn abandon(self)
        ensures { self.exit.0.now ≡ self.entry.buffer.now }
    {
        let CommitWriter {
            buffer,
            used: _,
            prior: _,
        } = self;
        let _ = buffer; // as it is
    }
}

// Writes the revision word and the first commit of a block, and gives the offset of its end.
pub fn write_first(
    buffer: &mut [u8],
    revision: u32,
    parts: &[Part<'_>],
) -> Result<usize, Unwritable>
    ensures { WritesFirst buffer.old revision (map piece_of parts.now) result buffer.new }
{
    let mut writer = CommitWriter::first(buffer, revision);
    let end = writer.put_all(parts);
    writer.abandon();
    end
}

// Writes a commit behind others, where the next tag is XORed with `prior`, and gives its length. It ends as `write_first`
// does: a function that took the writer would have to put it together again, as `finish` does, and be longer.
pub fn write_next(buffer: &mut [u8], prior: u32, parts: &[Part<'_>]) -> Result<usize, Unwritable>
    ensures { Writes buffer.old 0 prior (map piece_of parts.now) result buffer.new }
{
    let mut writer = CommitWriter::next(buffer, prior);
    let end = writer.put_all(parts);
    writer.abandon();
    end
}
