// One entry of a directory: its blocks, whether name and content fit, its name where it stands, and where it leads.
ghost use Rattle.std.specs.Prelude.{◌≡◌, ℕ, Bool, List};
ghost use Rattle.std.specs.Option.{option_map};
ghost use Rattle.metalog.specs.Log.{part};
ghost use Rattle.pairlist.specs.Desks.{Listed};
ghost use Rattle.pairs.specs.Slots.{content_of, slot_of};
ghost use Rattle.volume.specs.Check.{dirs_from, find_dir, fit_of};
ghost use Rattle.volume.specs.Global.{Hiding};
ghost use Rattle.volume.specs.Listing.{Readable};
ghost use Rattle.volume.specs.Marks.{Marks};
ghost use Rattle.volume.specs.Pair.{Pair};
ghost use Rattle.volume.specs.State.{SizedIn};
ghost use Rattle.flash.specs.Card.{Card};
ghost use Rattle.reader.specs.Names.{last_of};
ghost use Rattle.reader.specs.Scans.{BlocksChecked, FitsAs, NameTaken, DirEnters};

use crate::last::LastName;
use blockset::BlockSet;
use files::{Trail, check_file};
use flash::ReadableDevice;
use pairlist::{Desk, PairList};
use pairs::{Blocks, Content, Entry, Kind, PairReader, Span};
use volume::What;

// What the scan of a tree works with: the pair on the desk, the blocks that serve, and the directories that entries named.
#[derive(Drop)]
pub(crate) struct Scanner {
    pub desk: Desk,
    pub used: BlockSet,
    pub named: BlockSet,
    pub trail: Trail,
}

// A name that fits its content, by its place in the block: that of a file, or of a directory with its first pair.
#[derive(Clone, Copy, Debug, PartialEq, Eq)]
pub(crate) enum Fitted {
    File { name: Span },
    Directory { name: Span, pair: Blocks },
}

// What is wrong with the blocks that an entry names. If nothing is, those of a file serve from now on.
fn check_blocks<D: ReadableDevice>(
    device: &D,
    used: &mut BlockSet,
    trail: &mut Trail,
    content: Option<Content>,
) -> Result<(), What>
    requires card { Readable (D.meaning device.now) }
    requires sized { (b : List ℕ) → SizedIn (option_map (content_of b) content) }
    ensures { (b seen : List ℕ) → Marks used.old seen → BlocksChecked (D.meaning device.now) seen (option_map (content_of b) content) result used.new }
{
    match content {
        None | Some(Content::Inline(_)) => Ok(()),
        Some(Content::Pair(pair)) => {
            if device.is_good(pair.first) && device.is_good(pair.second) {
                Ok(())
            } else {
                Err(What::EntryBlock)
            }
        }
        Some(Content::SkipList { head, size }) => check_file(device, used, trail, head, size),
    }
}

// Whether name and content of an entry fit.
fn fit(entry: Entry) -> Result<Fitted, What>
    ensures { (b : List ℕ) → FitsAs b (fit_of (slot_of b entry)) result }
{
    let name = entry.name.ok_or(What::Entry)?;
    let content = entry.content.ok_or(What::Entry)?;
    match (name.kind, content) {
        (Kind::File, Content::Inline(_) | Content::SkipList { .. }) => {
            Ok(Fitted::File { name: name.span })
        }
        (Kind::Directory, Content::Pair(pair)) => Ok(Fitted::Directory {
            name: name.span,
            pair,
        }),
        (Kind::Superblock, Content::Inline(_)) => Err(What::SuperblockElsewhere),
        _ => Err(What::Entry),
    }
}

// What is wrong with a name where it stands. If nothing is, it is the name before from now on.
fn take_name(pairs: &PairReader, span: Span, deep: bool, last: &mut LastName) -> Result<(), What>
    ensures { NameTaken deep (last_of last.old) (part pairs.now.block span.at span.length) result last.new }
{
    let name = pairs.bytes(span);
    last.check(name, deep)?;
    last.keep(name);
    Ok(())
}

// The place in the list of the directory that begins with a pair, which is one of the list, not the root, and named by no entry
// before. It is named from now on.
fn enter_directory(list: &PairList, named: &mut BlockSet, pair: Blocks) -> Result<usize, What>
    ensures { (c : Card) (ps : List Pair) (h : Hiding) (dirs : List ℕ) → Listed c ps list.now → Marks named.old dirs → DirEnters ps dirs (find_dir 0 (dirs_from h 0 ps) pair.first pair.second) result named.new }
{
    let place = list.find_first(pair).ok_or(What::Directory)?;
    let row = list.row(place).ok_or(What::Directory)?;
    if row.dir == 0 || named.contains(row.dir) {
        return Err(What::Directory);
    }
    named.insert(row.dir);
    Ok(place)
}
