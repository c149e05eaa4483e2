// What a flash part is: the card that a device means, what it answers to each request, and what it leaves.
// A board engineer implements the two traits; everything above knows a device only by them.
#![tactic(auto)]

ghost use Rattle.std.specs.Prelude.{◌≡◌, List, length};
ghost use Rattle.flash.specs.Card.{Card, Shaped, is_good};
ghost use Rattle.flash.specs.Write.{number_of, program, erase};
ghost use Rattle.flash.specs.History.{Event};
ghost use Rattle.flash.specs.Device.{Reads, Answers, PowersUp};

mod counts;
mod erased;
mod geometry;
mod image;
pub mod laws;
mod recorder;
mod writing;

pub use counts::Counts;
pub use erased::is_erased;
pub use geometry::Geometry;
pub use image::CardImage;
pub use recorder::{Recorder, account_holds};
pub use writing::{UNIT, program_units, write_block};

// Why a device refuses a request, each reason with its number.
#[derive(Clone, Copy, PartialEq, Eq, Debug)]
pub enum Refusal {
    // The power is gone, or went in this very write.
    Dark = 12,
    // The request reaches outside the card, or is no unit.
    Outside = 17,
    // A write to a block that is not good.
    Bad = 18,
    // A program of a unit that is not all 0xff.
    Used = 19,
}

impl Refusal {
    pub fn number(self) -> u8
        ensures { result ≡ number_of self }
    {
        self as u8
    }
}

// A part that can be read: questions and reads answer from the card that it means, and alter nothing. Block and offset stay
// two numbers: a driver hands them on as two, and `is_good` and `erase` take the block alone.
pub trait ReadableDevice {
    ghost meaning: { Self → Card };

    fn block_size(&self) -> u32
        ensures { result ≡ (meaning self.now).size };

    fn block_count(&self) -> u32
        ensures { result ≡ length (meaning self.now).blocks };

    fn is_good(&self, block: u32) -> bool
        ensures { result ≡ is_good (meaning self.now) block };

    fn is_dark(&self) -> bool
        ensures { result ≡ (meaning self.now).dark };

    // Bytes of one block, from the offset `at` on, into the whole of `out`.
    fn read(&self, block: u32, at: u32, out: &mut [u8]) -> Result<(), Refusal>
        ensures { Reads (meaning self.now) block at out.old result out.new };

    ghost shaped: { (x : Self) → Shaped (meaning x) };
}

// A readable part that also takes writes.
pub trait WritableDevice: ReadableDevice {
    // Whether a list of events is a history of this device.
    ghost history: { Self → List Event → Type 0 } = { λ _ _. Unit {0} };

    // Fills one unit, 16 bytes at a multiple of 16, that was all 0xff.
    fn program(&mut self, block: u32, at: u32, unit: &[u8]) -> Result<(), Refusal>
        ensures { Answers (Self.ReadableDevice.meaning self.old) (program block at unit.now) result (Self.ReadableDevice.meaning self.new) (history self.old) (history self.new) };

    // Sets one block to 0xff.
    fn erase(&mut self, block: u32) -> Result<(), Refusal>
        ensures { Answers (Self.ReadableDevice.meaning self.old) (erase block) result (Self.ReadableDevice.meaning self.new) (history self.old) (history self.new) };

    // Powers the part up again.
    fn take_up(&mut self)
        ensures { PowersUp (Self.ReadableDevice.meaning self.old) (Self.ReadableDevice.meaning self.new) (history self.old) (history self.new) };
}
