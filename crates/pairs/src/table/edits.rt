// What a tag does to the entries of a table.
ghost use Rattle.std.specs.Prelude.{◌≡◌, ◌<◌, [], length, slice_index_or, slice_set};
ghost use Rattle.pairs.specs.Slots.{none};
ghost use Rattle.pairs.specs.Tables.{grown_to, called, Edited, Gives};

use super::Table;
use crate::entry::{Content, Entry, Name};
use crate::tags::Misplaced;
use arrayvec::ArrayVec;

impl Table {
    // A table without entries.
    pub(crate) fn new() -> Table
        ensures entries { result.entries.items ≡ [] }
        ensures tail { result.tail ≡ None }
        ensures moves { result.moves ≡ None }
    {
        Table {
            entries: ArrayVec::new(),
            tail: None,
            moves: None,
        }
    }

    // Takes all out.
    pub(crate) fn clear(&mut self)
        ensures entries { self.new.entries.items ≡ [] }
        ensures tail { self.new.tail ≡ None }
        ensures moves { self.new.moves ≡ None }
    {
        self.entries.clear();
        self.tail = None;
        self.moves = None;
    }

    // As many entries as an id asks for.
    fn grow(&mut self, id: usize)
        requires { id < 2048 }
        ensures entries { Edited self.old self.new (grown_to self.old.entries.items id) }
        ensures there { id < length self.new.entries.items }
    {
        for _ in self.entries.len()..=id {
            self.entries.push(Entry::default());
        }
    }

    // A name for the entry at an id, which is made where it is not there.
    pub(crate) fn set_name(&mut self, id: usize, name: Name)
        requires { id < 2048 }
        ensures { Edited self.old self.new (slice_set (grown_to self.old.entries.items id) id (called (slice_index_or (grown_to self.old.entries.items id) id none) name)) }
    {
        self.grow(id);
        self.entries[id].name = Some(name);
    }

    // What stands behind the entry at an id, if there is such an entry.
    pub(crate) fn set_content(&mut self, id: usize, content: Content) -> Result<(), Misplaced>
        ensures content { Gives self.old id content result self.new }
        ensures few { length self.new.entries.items ≡ length self.old.entries.items }
    {
        let entry = self.entries.get_mut(id).ok_or(Misplaced)?;
        entry.content = Some(content);
        Ok(())
    }
}
