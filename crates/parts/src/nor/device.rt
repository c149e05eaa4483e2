// A NOR chip as a device. Beside the promise that every device makes, its own say exactly what each request does:
// which writes count, in which one the power goes, and what that one leaves. It hands each question on in one line, as the board
// does: a trait over both would need every one of these lines too.
ghost use Rattle.std.specs.Prelude.{◌≡◌};
ghost use Rattle.flash.specs.Device.{Answers, PowersUp};
ghost use Rattle.flash.specs.Write.{program, erase};
ghost use Rattle.parts.specs.Chip.{Writes, powered_up};
ghost use Rattle.parts.specs.Nor.{state_of};
ghost use Rattle.parts.specs.Held.{held_shaped};

use super::NorChip;
use flash::{ReadableDevice, Refusal, WritableDevice};

impl ReadableDevice for NorChip {
    ghost meaning = { λ x. (state_of x).card };

    ghost shaped = { λ x. held_shaped x.cells _ _ x.marked };

    fn block_size(&self) -> u32 {
        self.cells.geometry.block_size
    }

    fn block_count(&self) -> u32 {
        self.cells.geometry.block_count
    }

    fn is_good(&self, block: u32) -> bool {
        self.good.get(block as usize).copied().unwrap_or(false)
    }

    fn is_dark(&self) -> bool {
        self.power.dark
    }

    fn read(&self, block: u32, at: u32, out: &mut [u8]) -> Result<(), Refusal> {
        if self.power.dark {
            return Err(Refusal::Dark);
        }
        self.cells.read(block, at, out)
    }
}

impl WritableDevice for NorChip {
    fn program(&mut self, block: u32, at: u32, unit: &[u8]) -> Result<(), Refusal>
        ensures answers { Answers (state_of self.old).card (program block at unit.now) result (state_of self.new).card (λ _. Unit {0}) (λ _. Unit {0}) }
        ensures exact { Writes (state_of self.old) (program block at unit.now) result (state_of self.new) }
    {
        if self.power.dark {
            return Err(Refusal::Dark);
        }
        self.cells
            .check_program(self.is_good(block), block, at, unit)?;
        if self.power.spend() {
            self.cells.put(block, at, &unit[0..8]);
            return Err(Refusal::Dark);
        }
        self.cells.put(block, at, unit);
        Ok(())
    }

    fn erase(&mut self, block: u32) -> Result<(), Refusal>
        ensures answers { Answers (state_of self.old).card (erase block) result (state_of self.new).card (λ _. Unit {0}) (λ _. Unit {0}) }
        ensures exact { Writes (state_of self.old) (erase block) result (state_of self.new) }
    {
        if self.power.dark {
            return Err(Refusal::Dark);
        }
        self.cells.check_erase(self.is_good(block), block)?;
        let size = self.cells.geometry.block_size;
        if self.power.spend() {
            self.cells.erase_first(block, size / 2);
            return Err(Refusal::Dark);
        }
        self.cells.erase_first(block, size);
        Ok(())
    }

    fn take_up(&mut self)
        ensures answers { PowersUp (state_of self.old).card (state_of self.new).card (λ _. Unit {0}) (λ _. Unit {0}) }
        ensures exact { state_of self.new ≡ powered_up (state_of self.old) }
    {
        self.power.restore();
    }
}
