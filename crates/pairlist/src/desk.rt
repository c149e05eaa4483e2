// A pair of the list on the desk: it is read when it is asked for, and lies there until another one is.
ghost use Rattle.std.specs.Prelude.{◌≡◌, ℕ, List, Some};
ghost use Rattle.std.specs.List.{slice_get};
ghost use Rattle.volume.specs.Pair.{Pair};
ghost use Rattle.pairlist.specs.Walks.{Walks};
ghost use Rattle.pairlist.specs.Desks.{Listed, OnDesk, Loads};

use crate::rows::PairList;
use blockset::BlockSet;
use flash::ReadableDevice;
use pairs::{Moves, PairReader};
use volume::{Fault, What};

#[derive(Drop)]
pub struct Desk {
    pub pairs: PairReader,
    // the place in the list of the pair that lies here
    place: Option<usize>,
}

impl Desk {
    // An empty desk.
    pub fn new() -> Desk
        ensures { (ps : List Pair) → OnDesk ps result }
    {
        Desk {
            pairs: PairReader::new(),
            place: None,
        }
    }

    // Lists the pairs of a card, as `PairList::walk` does, and leaves the desk empty.
    pub fn walk<D: ReadableDevice>(
        &mut self,
        device: &D,
        list: &mut PairList,
        used: &mut BlockSet,
    ) -> Result<Moves, Fault>
        ensures walks { Walks (D.meaning device.now) result list.new used.new }
        ensures cleared { (ps : List Pair) → OnDesk ps self.new }
    {
        self.place = None;
        list.walk(device, &mut self.pairs, used)
    }

    // Reads the pair at a place of the list, unless it lies here.
    pub fn load<D: ReadableDevice>(
        &mut self,
        device: &D,
        list: &PairList,
        place: usize,
    ) -> Result<(), Fault>
        ensures { (ps : List Pair) (p : Pair) → Listed (D.meaning device.now) ps list.now → OnDesk ps self.old → slice_get ps place ≡ Some p → Loads ps place p result self.new }
    {
        if self.place == Some(place) {
            return Ok(());
        }
        let row = list.row(place).ok_or(What::Directory.at(0, 0))?;
        self.place = None;
        self.pairs.read(device, row.pair)?;
        self.place = Some(place);
        Ok(())
    }
}
