// A device that keeps account of what was asked of another one and not refused: how many programs, erases and take-ups
// there were. It answers as the device that it is laid over, and its counters stop at their maximum.
ghost use Rattle.std.specs.Prelude.{◌≡◌, []};
ghost use Rattle.flash.specs.Counts.{Account, Counted, not_refused, recorded};

use super::counts::{Counts, count};
use super::{ReadableDevice, Refusal, WritableDevice};

#[derive(Drop)]
pub struct Recorder<D: WritableDevice> {
    device: D,
    counts: Counts,
}

impl<D: WritableDevice> Recorder<D> {
    // Lays a recorder over a device, and begins to count.
    pub fn new(device: D) -> Recorder<D>
        ensures over { result.device ≡ device }
        ensures begins { Counted result.counts [] }
    {
        Recorder {
            device,
            counts: Counts::default(),
        }
    }

    // How many of each kind there were.
    pub fn counts(&self) -> Counts
        ensures { result ≡ self.now.counts }
    {
        self.counts
    }

    // How many programs were not refused.
    pub fn programs(&self) -> u64
        ensures { result ≡ self.now.counts.programs }
    {
        self.counts.programs
    }

    // How many erases were not refused.
    pub fn erases(&self) -> u64
        ensures { result ≡ self.now.counts.erases }
    {
        self.counts.erases
    }

    // How often the device was powered up.
    pub fn take_ups(&self) -> u64
        ensures { result ≡ self.now.counts.take_ups }
    {
        self.counts.take_ups
    }

    // The device below, with what it holds.
    pub fn into_inner(self) -> D
        ensures { result ≡ self.device }
    {
        let Recorder { device, counts: _ } = self;
        device
    }

    // Whether a write was not refused, by its answer and whether the power was gone before it.
    fn was_asked(&self, answer: &Result<(), Refusal>, was_dark: bool) -> bool
        ensures { result ≡ not_refused answer.now was_dark (D.ReadableDevice.meaning self.now.device).dark }
    {
        answer.is_ok() || !was_dark && self.device.is_dark()
    }
}

// A law for proofs, at any two states of a recorder: code that is handed a new recorder and promises of its history which
// events it added has the counters tell the number of exactly these events. The answer is how many counters there are.
pub fn account_holds<D: WritableDevice>(before: &Recorder<D>, after: &Recorder<D>) -> u8
    ensures counters { result ≡ 3 }
    ensures law { Account (recorded (D.WritableDevice.history before.now.device) before.now.counts) (recorded (D.WritableDevice.history after.now.device) after.now.counts) after.now.counts }
{
    3
}

impl<D: WritableDevice> ReadableDevice for Recorder<D> {
    ghost meaning = { λ s. D.ReadableDevice.meaning s.device };

    ghost shaped = { λ s. D.ReadableDevice.shaped s.device };

    fn block_size(&self) -> u32 {
        self.device.block_size()
    }

    fn block_count(&self) -> u32 {
        self.device.block_count()
    }

    fn is_good(&self, block: u32) -> bool {
        self.device.is_good(block)
    }

    fn is_dark(&self) -> bool {
        self.device.is_dark()
    }

    fn read(&self, block: u32, at: u32, out: &mut [u8]) -> Result<(), Refusal> {
        self.device.read(block, at, out)
    }
}

impl<D: WritableDevice> WritableDevice for Recorder<D> {
    ghost history = { λ s. recorded (D.WritableDevice.history s.device) s.counts };

    fn program(&mut self, block: u32, at: u32, unit: &[u8]) -> Result<(), Refusal> {
        let was_dark = self.device.is_dark();
        let answer = self.device.program(block, at, unit);
        if self.was_asked(&answer, was_dark) {
            count(&mut self.counts.programs);
        }
        answer
    }

    fn erase(&mut self, block: u32) -> Result<(), Refusal> {
        let was_dark = self.device.is_dark();
        let answer = self.device.erase(block);
        if self.was_asked(&answer, was_dark) {
            count(&mut self.counts.erases);
        }
        answer
    }

    fn take_up(&mut self) {
        self.device.take_up();
        count(&mut self.counts.take_ups);
    }
}
