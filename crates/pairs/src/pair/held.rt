// What a reader of pairs holds: its entries, its tail and its move data, and the bytes that they stand for.
ghost use Rattle.std.specs.Prelude.{◌≡◌, ◌≤◌, length};
ghost use Rattle.std.specs.Option.{option_map};
ghost use Rattle.std.specs.List.{slice_get};
ghost use Rattle.metalog.specs.Log.{part};
ghost use Rattle.volume.specs.State.{start, size_of};
ghost use Rattle.pairs.specs.Slots.{slot_of, tail_of, moves_of};
ghost use Rattle.pairs.specs.Sizes.{clipped, name_size, content_size, entry_size};
ghost use Rattle.pairs.specs.Pairs.{state_in};

use super::{BUFFER, PairReader};
use crate::entry::{Content, Entry, Moves, Name, Span, Tail};
use crate::table::Table;

// How many bytes of a place lie in the buffer.
fn clipped(span: Span) -> usize
    ensures { result ≡ clipped span }
{
    (span.length as usize).min(BUFFER.saturating_sub(span.at as usize))
}

// How many bytes a name has.
fn name_size(name: Option<Name>) -> usize
    ensures size { result ≡ name_size name }
    ensures small { result ≤ 4096 }
{
    name.map_or(0, |name| clipped(name.span))
}

// How many bytes the content of an entry takes.
fn content_size(content: Option<Content>) -> usize
    ensures size { result ≡ content_size content }
    ensures small { result ≤ 4096 }
{
    match content {
        Some(Content::Inline(span)) => clipped(span),
        Some(Content::Pair(_) | Content::SkipList { .. }) => 8,
        None => 0,
    }
}

// How many bytes an entry takes, written as one commit: two tags and their data.
fn entry_size(entry: Entry) -> usize
    ensures size { result ≡ entry_size entry }
    ensures small { result ≤ 8200 }
{
    8 + name_size(entry.name) + content_size(entry.content)
}

impl PairReader {
    // A reader that has read nothing yet: no entries, no tail and no move data.
    pub fn new() -> PairReader
        ensures { state_in result ≡ start }
    {
        PairReader {
            block: [0; 4096],
            table: Table::new(),
        }
    }

    // How many entries there are.
    pub fn count(&self) -> usize
        ensures count { result ≡ length (state_in self.now).entries }
        ensures few { result ≤ 2048 }
    {
        self.table.entries.len()
    }

    // The entry with this id, if there is one.
    pub fn entry(&self, id: usize) -> Option<Entry>
        ensures { option_map (slot_of self.now.block) result ≡ slice_get (state_in self.now).entries id }
    {
        self.table.entries.get(id).copied()
    }

    // The tail, if there is one.
    pub fn tail(&self) -> Option<Tail>
        ensures { option_map tail_of result ≡ (state_in self.now).tail }
    {
        self.table.tail
    }

    // The move data, if there are any.
    pub fn moves(&self) -> Option<Moves>
        ensures { option_map moves_of result ≡ (state_in self.now).moves }
    {
        self.table.moves
    }

    // The bytes of a place in the buffer.
    pub fn bytes(&self, span: Span) -> &[u8]
        ensures { result.now ≡ part self.now.block span.at span.length }
    {
        let from = (span.at as usize).min(BUFFER);
        &self.block[from..from + clipped(span)]
    }

    // How many bytes the entries take, written as one commit.
    pub fn size(&self) -> usize
        ensures { result ≡ size_of (state_in self.now).entries }
    {
        let mut total = 0;
        for id in 0..self.table.entries.len() {
            total += entry_size(self.table.entries[id]);
        }
        total
    }
}
