// Reads a pair from a device: the log that counts, in a buffer, and the table that it makes.
ghost use Rattle.std.specs.Prelude.{◌≡◌, ℕ, ◌≤◌, [], length, take};
ghost use Rattle.metalog.specs.Log.{commits_of, items_of};
ghost use Rattle.volume.specs.State.{start, fold_items};
ghost use Rattle.volume.specs.Pair.{finished_of};
ghost use Rattle.pairs.specs.Pairs.{Surveys, Judges, PairReads};

mod held;

use crate::choice::{Side, choose};
use crate::entry::Blocks;
use crate::fold::fold;
use crate::table::Table;
use flash::ReadableDevice;
use metalog::Survey;
use volume::{Fault, What};

// The block whose log counts, and what its log makes.
#[derive(Drop)]
pub struct PairReader {
    // The block fills the first bytes of the buffer: how many, the device says at each reading, so that no length is kept.
    block: [u8; 4096],
    table: Table,
}

// How many bytes the buffer has: a block of more bytes cannot be read.
const BUFFER: usize = 4096;

// Reads a whole block, and says what its log is in short.
fn survey<D: ReadableDevice>(device: &D, block: u32, out: &mut [u8]) -> Result<Survey, Fault>
    requires { length out.old ≡ (D.meaning device.now).size }
    ensures { Surveys (D.meaning device.now) block result out.new }
{
    device.read(block, 0, out)?;
    Ok(Survey::of(out))
}

impl PairReader {
    // Reads a pair. The answer is the block whose log counts, or the first fault.
    pub fn read<D: ReadableDevice>(&mut self, device: &D, pair: Blocks) -> Result<u32, Fault>
        ensures { PairReads (D.meaning device.now) pair.first pair.second result self.new }
    {
        let size = device.block_size() as usize;
        if size > BUFFER {
            return Err(What::Size.at(0, 0));
        }
        let first = self.load(device, pair.first, size)?;
        let second = self.load(device, pair.second, size)?;
        let side = choose(first, second).map_err(|what| what.at(pair.first, 0))?;
        match side {
            Side::First => {
                self.load(device, pair.first, size)?;
                self.fold_at(size, first.commits, pair.first)
            }
            Side::Second => self.fold_at(size, second.commits, pair.second),
        }
    }

    // Reads a whole block into the first bytes of the buffer, and says what its log is in short.
    fn load<D: ReadableDevice>(
        &mut self,
        device: &D,
        block: u32,
        size: usize,
    ) -> Result<Survey, Fault>
        requires { (size ≡ (D.meaning device.now).size) × (size ≤ 4096) }
        ensures { Surveys (D.meaning device.now) block result (take size self.new.block) }
    {
        survey(device, block, &mut self.block[0..size])
    }

    // What the log in the first bytes of the buffer, of which so many commits are finished, makes.
    fn fold_at(&mut self, size: usize, commits: usize, block: u32) -> Result<u32, Fault>
        requires { (size ≤ 4096) × (commits ≡ length (commits_of [] (items_of (take size self.old.block)))) }
        ensures kept { self.new.block ≡ self.old.block }
        ensures judged { (a b : ℕ) → Judges a b block (fold_items start (finished_of (take size self.old.block))) result self.new }
    {
        let table = &mut self.table;
        let log = &mut self.block[0..size];
        fold(log, commits, table).map_err(|at| What::Tag.at(block, at as u32))?;
        Ok(block)
    }
}
