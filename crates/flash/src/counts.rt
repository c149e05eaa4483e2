// How many requests of each kind there were, as counters that stop at their maximum.
ghost use Rattle.std.specs.Prelude.{◌≡◌, ◌+◌};
ghost use Rattle.flash.specs.Counts.{capped};

// How many programs, erases and take-ups there were.
#[derive(Clone, Copy, PartialEq, Eq, Debug, Default)]
pub struct Counts {
    pub programs: u64,
    pub erases: u64,
    pub take_ups: u64,
}

// Counts one more, where the counter has room.
pub(crate) fn count(counter: &mut u64)
    ensures { counter.new ≡ capped (counter.old + 1) }
{
    *counter = counter.saturating_add(1);
}
