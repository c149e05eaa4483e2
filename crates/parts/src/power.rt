// The power of a chip: whether it is gone, and in which of the writes to come it goes.
// Only writes that pass their checks are counted: the chip counts one where nothing refuses it any more.
ghost use Rattle.std.specs.Prelude.{◌≡◌, ◌-◌, false, ◌||◌, ◌==◌};

// On or gone, with the count.
#[derive(Default, Drop)]
pub struct Power {
    pub dark: bool,
    // Counted from 1, the write in which the power goes; 0: it stays. The chip takes and tells this number as it is, so an
    // Option here would only be made from it and turned back into it.
    pub left: u32,
}

impl Power {
    // The power goes in this write from now on, counted from 1; 0: it stays.
    pub fn choose(&mut self, write: u32)
        ensures left { self.new.left ≡ write }
        ensures dark { self.new.dark ≡ self.old.dark }
    {
        self.left = write;
    }

    // Counts one write, and says whether the power goes in it.
    pub fn spend(&mut self) -> bool
        ensures goes { result ≡ (self.old.left == 1) }
        ensures left { self.new.left ≡ self.old.left - 1 }
        ensures dark { self.new.dark ≡ (self.old.dark || result) }
    {
        let goes = self.left == 1;
        self.dark = self.dark || goes;
        self.left = self.left.saturating_sub(1);
        goes
    }

    // The power is back; a pending count goes on.
    pub fn restore(&mut self)
        ensures left { self.new.left ≡ self.old.left }
        ensures dark { self.new.dark ≡ false }
    {
        self.dark = false;
    }
}
