// Reads a block's log tag by tag: whatever the block holds, the reader gives what the reading rule says.
ghost use Rattle.std.specs.Prelude.{◌≡◌, ◌+◌, ◌≤◌, length, IfSome, Some, OnSome};
ghost use Rattle.std.specs.Option.{option_map};
ghost use Rattle.metalog.specs.Tag.{length_of, le32};
ghost use Rattle.metalog.specs.Log.{tag_at, closes, closing, holding, entry_at, end_at, past, part, start, log_of, end_of};
ghost use Rattle.metalog.specs.Reader.{entry_of, end_for, item_of, cursor_of};

use crate::checksum::{SEED, crc};
use crate::tags::{Role, Tag};

// A tag of a commit, with the offset of its first byte in the block, and its data, a part of the block. Its type stays a
// number: a log may hold types that nobody knows.
#[derive(Clone, Copy, PartialEq, Eq, Debug)]
pub struct Entry<'a> {
    pub kind: u32,
    pub id: u32,
    pub offset: usize,
    pub data: &'a [u8],
}

// The end of a commit: where it ends, what the tag behind it is XORed with, and the offset and the id of the tag that ends it.
#[derive(Clone, Copy, PartialEq, Eq, Debug)]
pub struct End {
    pub offset: usize,
    pub prior: u32,
    pub tag: usize,
    pub id: u32,
}

// What a tag of the log says.
#[derive(Clone, Copy, PartialEq, Eq, Debug)]
pub enum Item<'a> {
    // It belongs to the commit.
    Held(Entry<'a>),
    // It ends the commit.
    Ended(End),
}

// A valid tag at an offset of a block that has all its data.
#[derive(Clone, Copy)]
struct Found<'a> {
    block: &'a [u8],
    at: usize,
    tag: Tag,
    ghost fits: { at + 4 + length_of tag.word ≤ length block.now },
}

impl<'a> Found<'a> {
    fn at(block: &'a [u8], at: usize, prior: u32) -> Option<Found<'a>>
        ensures tag { option_map (λ f. f.tag.word) result ≡ tag_at block.now at prior }
        ensures place { IfSome result (λ f. (f.block.now ≡ block.now) × (f.at ≡ at)) }
    {
        let left = block.get(at..)?;
        let tag = Tag {
            word: u32::from_be_bytes(*left.first_chunk::<4>()?) ^ prior,
        };
        if tag.word >= 0x8000_0000 || left.len() - 4 < tag.length() {
            return None;
        }
        Some(Found { block, at, tag })
    }

    // The offset behind the tag and its data.
    fn end(self) -> usize
        ensures { result ≡ past self.entry.at self.entry.tag.word }
    {
        self.at + 4 + self.tag.length()
    }

    // The bytes of the tag and its data, as they are stored.
    fn stored(self) -> &'a [u8]
        ensures { result.now ≡ part self.entry.block.now self.entry.at (4 + length_of self.entry.tag.word) }
    {
        &self.block[self.at..self.end()]
    }

    fn data(self) -> &'a [u8]
        ensures { result.now ≡ part self.entry.block.now (self.entry.at + 4) (length_of self.entry.tag.word) }
    {
        &self.block[self.at + 4..self.end()]
    }

    // Whether the commit that it ends has the checksum that stands behind it.
    fn closes(self, sum: u32) -> bool
        ensures { result ≡ closes self.entry.block.now self.entry.at sum self.entry.tag.word }
    {
        let Some(right) = self.data().first_chunk::<4>() else {
            return false;
        };
        crc(sum, &self.block[self.at..self.at + 4]) == u32::from_le_bytes(*right)
    }

    fn entry(self) -> Entry<'a>
        ensures { entry_of result ≡ entry_at self.entry.block.now self.entry.at self.entry.tag.word }
    {
        Entry {
            kind: self.tag.kind(),
            id: self.tag.id(),
            offset: self.at,
            data: self.data(),
        }
    }

    fn end_of_commit(self) -> End
        ensures { end_for result ≡ end_at self.entry.at self.entry.tag.word }
    {
        End {
            offset: self.end(),
            prior: self.tag.next_prior(),
            tag: self.at,
            id: self.tag.id(),
        }
    }
}

// Where a reader stands: matched with the kind of the next tag, this is the reading rule.
#[derive(Clone, Copy, PartialEq, Eq, Debug)]
enum State {
    // In a commit whose bytes so far have this checksum.
    Inside(u32),
    // Behind a finished commit.
    Ended,
    // Behind the log.
    Stopped,
}

// Reads the log of a block from its first commit on. Of each commit it gives the tags and then the end.
#[derive(Drop)]
pub struct LogReader<'a> {
    block: &'a [u8],
    at: usize,
    prior: u32,
    state: State,
}

impl<'a> LogReader<'a> {
    pub fn new(block: &'a [u8]) -> LogReader<'a>
        ensures block { result.block.now ≡ block.now }
        ensures cursor { cursor_of result ≡ start block.now }
    {
        let state = match block.get(..4) {
            Some(revision) => State::Inside(crc(SEED, revision)),
            None => State::Stopped,
        };
        LogReader {
            block,
            at: 4,
            prior: 0xffff_ffff,
            state,
        }
    }

    // Passes over a tag that ends no commit.
    fn hold(&mut self, sum: u32, found: Found<'a>) -> Item<'a>
        ensures block { self.new.block.now ≡ self.old.block.now }
        ensures place { self.new.at ≡ past found.entry.at found.entry.tag.word }
        ensures item { Some (item_of result) ≡ (holding found.entry.block.now found.entry.at sum found.entry.tag.word).item }
        ensures cursor { cursor_of self.new ≡ (holding found.entry.block.now found.entry.at sum found.entry.tag.word).next }
    {
        self.state = State::Inside(crc(sum, found.stored()));
        self.at = found.end();
        self.prior = found.tag.next_prior();
        Item::Held(found.entry())
    }

    // Ends a commit where its checksum is right, else stops.
    fn close(&mut self, sum: u32, found: Found<'a>) -> Option<Item<'a>>
        ensures block { self.new.block.now ≡ self.old.block.now }
        ensures place { OnSome result (self.new.at ≡ past found.entry.at found.entry.tag.word) }
        ensures item { option_map item_of result ≡ (closing found.entry.block.now found.entry.at sum found.entry.tag.word).item }
        ensures cursor { cursor_of self.new ≡ (closing found.entry.block.now found.entry.at sum found.entry.tag.word).next }
    {
        if !found.closes(sum) {
            self.state = State::Stopped;
            return None;
        }
        let end = found.end_of_commit();
        self.state = State::Ended;
        self.at = end.offset;
        self.prior = end.prior;
        Some(Item::Ended(end))
    }
}

// The next tag of a commit or the end of one, until the log ends.
impl<'a> Iterator for LogReader<'a> {
    ghost use Rattle.std.specs.Prelude.{◌-◌, length};
    ghost use Rattle.std.specs.Iterator.{at_most};
    ghost use Rattle.metalog.specs.Reader.{Reads};

    type Item = Item<'a>;

    ghost next_gives = { Reads };

    ghost remaining = { λ r. at_most (length r.block.now - r.at) };

    // Inlined, so that a loop keeps the reader's state in registers.
    #[inline(always)]
    fn next(&mut self) -> Option<Item<'a>> {
        let Some(found) = Found::at(self.block, self.at, self.prior) else {
            self.state = State::Stopped;
            return None;
        };
        match (self.state, found.tag.role()) {
            (State::Stopped, _) => None,
            (State::Inside(sum), Role::Holds) => Some(self.hold(sum, found)),
            (State::Ended, Role::Holds) => Some(self.hold(SEED, found)),
            (State::Inside(sum), Role::Ends) => self.close(sum, found),
            (State::Ended, Role::Ends) => self.close(SEED, found),
        }
    }
}

// A log in short: its revision, how many commits are finished, and the end of the last of them. It is all that writing
// behind the log takes. An empty log has the revision 0 and ends at the offset 0: every block
// has a log, so a survey is no Option.
#[derive(Clone, Copy, PartialEq, Eq, Debug)]
pub struct Survey {
    pub revision: u32,
    pub commits: usize,
    pub end: End,
}

// The revision word of a block that has room for one.
fn revision_word(block: &[u8]) -> u32
    ensures { 4 ≤ length block.now → result ≡ le32 block.now 0 }
{
    block
        .first_chunk::<4>()
        .map_or(0, |word| u32::from_le_bytes(*word))
}

impl Survey {
    pub fn of(block: &[u8]) -> Survey
        ensures revision { result.revision ≡ (log_of block.now).revision }
        ensures commits { result.commits ≡ length (log_of block.now).commits }
        ensures end { end_for result.end ≡ end_of block.now }
    {
        let mut commits = 0;
        let mut end = End {
            offset: 0,
            prior: 0xffff_ffff,
            tag: 0,
            id: 0x3ff,
        };
        for item in LogReader::new(block) {
            if let Item::Ended(last) = item {
                commits += 1;
                end = last;
            }
        }
        Survey {
            revision: if commits > 0 { revision_word(block) } else { 0 },
            commits,
            end,
        }
    }
}
