// What a tag of a finished commit does to a table. Each effect has its method, which fails where a tag of that length, id
// and size must not be there. Each says for itself how many entries there are then, also where it fails: of a table after a
// failure nothing else is known.
#![tactic(auto, unfolding(volume::specs::State::applied))]

ghost use Rattle.std.specs.Prelude.{◌≡◌, ℕ, ◌+◌, ◌^◌, ◌<◌, ◌≤◌, max, length, MatchResult};
ghost use Rattle.metalog.specs.Reader.{entry_of};
ghost use Rattle.volume.specs.State.{inserts, removes, names, points, holds, skips, tails, moves};
ghost use Rattle.pairs.specs.Slots.{kind_of};
ghost use Rattle.pairs.specs.Changes.{Changes, Applies};

use crate::entry::{Blocks, Content, Entry, Kind, Moves, Name, Span, Tail};
use crate::table::Table;
use crate::tags::{Effect, Misplaced, two_words};

// The most bytes of a name, and of an inline file.
const LONGEST: usize = 64;

// The most bytes of a skip-list file.
const LARGEST: u32 = 1_048_576;

// The id of a tag that is about no entry.
pub(crate) const NO_ID: usize = 0x3ff;

// The place `at` of bytes that are not too many.
fn span_of(at: usize, bytes: &[u8]) -> Result<Span, Misplaced>
    requires { at < 2 ^ 32 }
    ensures { MatchResult result (λ span. (length bytes.now ≤ 64) × (span ≡ record { at = at; length = length bytes.now })) (λ _. 64 < length bytes.now) }
{
    if bytes.len() > LONGEST {
        return Err(Misplaced);
    }
    Ok(Span {
        at: at as u32,
        length: bytes.len() as u32,
    })
}

impl Table {
    // A new entry at an id.
    fn insert_at(&mut self, id: usize, bytes: &[u8]) -> Result<(), Misplaced>
        requires { length self.old.entries.items < 2048 }
        ensures change { (at : ℕ) → Changes self.old inserts id at bytes.now result self.new }
        ensures few { length self.new.entries.items ≤ length self.old.entries.items + 1 }
    {
        if !bytes.is_empty() || id > self.entries.len() {
            return Err(Misplaced);
        }
        self.entries.insert(id, Entry::default());
        Ok(())
    }

    // Without the entry at an id.
    fn remove_at(&mut self, id: usize, bytes: &[u8]) -> Result<(), Misplaced>
        ensures change { (at : ℕ) → Changes self.old removes id at bytes.now result self.new }
        ensures few { length self.new.entries.items ≤ length self.old.entries.items }
    {
        if !bytes.is_empty() || id >= self.entries.len() {
            return Err(Misplaced);
        }
        self.entries.remove(id);
        Ok(())
    }

    // A name, whose bytes stand at the place `at`.
    fn name_at(&mut self, id: usize, kind: Kind, at: usize, bytes: &[u8]) -> Result<(), Misplaced>
        requires { (id < 1024) × (at < 2 ^ 32) }
        ensures change { Changes self.old (names (kind_of kind)) id at bytes.now result self.new }
        ensures few { length self.new.entries.items ≤ max (length self.old.entries.items) 1024 }
    {
        if bytes.is_empty() {
            return Err(Misplaced);
        }
        let span = span_of(at, bytes)?;
        self.set_name(id, Name { kind, span });
        Ok(())
    }

    // A directory's first pair.
    fn point_at(&mut self, id: usize, bytes: &[u8]) -> Result<(), Misplaced>
        ensures change { (at : ℕ) → Changes self.old points id at bytes.now result self.new }
        ensures few { length self.new.entries.items ≡ length self.old.entries.items }
    {
        let [first, second] = two_words(bytes)?;
        self.set_content(id, Content::Pair(Blocks { first, second }))
    }

    // An inline file, whose bytes stand at the place `at`.
    fn hold_at(&mut self, id: usize, at: usize, bytes: &[u8]) -> Result<(), Misplaced>
        requires { at < 2 ^ 32 }
        ensures change { Changes self.old holds id at bytes.now result self.new }
        ensures few { length self.new.entries.items ≡ length self.old.entries.items }
    {
        let span = span_of(at, bytes)?;
        self.set_content(id, Content::Inline(span))
    }

    // The last block and the size of a skip-list file.
    fn skip_at(&mut self, id: usize, bytes: &[u8]) -> Result<(), Misplaced>
        ensures change { (at : ℕ) → Changes self.old skips id at bytes.now result self.new }
        ensures few { length self.new.entries.items ≡ length self.old.entries.items }
    {
        let [head, size] = two_words(bytes)?;
        if !(1..=LARGEST).contains(&size) {
            return Err(Misplaced);
        }
        self.set_content(id, Content::SkipList { head, size })
    }

    // The pair that the tail names.
    fn tail_to(&mut self, id: usize, hard: bool, bytes: &[u8]) -> Result<(), Misplaced>
        ensures change { (at : ℕ) → Changes self.old (tails hard) id at bytes.now result self.new }
        ensures few { length self.new.entries.items ≡ length self.old.entries.items }
    {
        if id != NO_ID {
            return Err(Misplaced);
        }
        let [first, second] = two_words(bytes)?;
        let pair = Blocks { first, second };
        self.tail = Some(Tail { hard, pair });
        Ok(())
    }

    // The move data, which are three words.
    fn move_by(&mut self, id: usize, bytes: &[u8]) -> Result<(), Misplaced>
        ensures change { (at : ℕ) → Changes self.old moves id at bytes.now result self.new }
        ensures few { length self.new.entries.items ≡ length self.old.entries.items }
    {
        if id != NO_ID {
            return Err(Misplaced);
        }
        let ([word, first, second], []) = bytes.as_chunks::<4>() else {
            return Err(Misplaced);
        };
        let pair = Blocks {
            first: u32::from_le_bytes(*first),
            second: u32::from_le_bytes(*second),
        };
        self.moves = Some(Moves {
            word: u32::from_le_bytes(*word),
            pair,
        });
        Ok(())
    }
}

// One tag of a finished commit, applied to the table, unless it must not be there. A match and no table of closures: the effects
// take different values.
pub(crate) fn apply(table: &mut Table, entry: metalog::Entry<'_>) -> Result<(), Misplaced>
    requires { (length table.old.entries.items < 2048) × ((entry.id < 1024) × (entry.offset + 4 < 2 ^ 32)) }
    ensures change { Applies table.old (entry_of entry.entry) result table.new }
    ensures few { length table.new.entries.items ≤ max (length table.old.entries.items + 1) 1024 }
{
    let id = entry.id as usize;
    let at = entry.offset + 4;
    match Effect::try_from(entry.kind)? {
        Effect::Inserts => table.insert_at(id, entry.data),
        Effect::Removes => table.remove_at(id, entry.data),
        Effect::Names(kind) => table.name_at(id, kind, at, entry.data),
        Effect::Points => table.point_at(id, entry.data),
        Effect::Holds => table.hold_at(id, at, entry.data),
        Effect::Skips => table.skip_at(id, entry.data),
        Effect::Tails { hard } => table.tail_to(id, hard, entry.data),
        Effect::Moves => table.move_by(id, entry.data),
    }
}
