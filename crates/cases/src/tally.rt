// How many cases were played, and how many of them differ.
ghost use Rattle.std.specs.Prelude.{◌≡◌, ◌+◌, ◌-◌, ◌^◌, min, if◌then◌else◌};

// Both numbers stop at the most that they can hold.
#[derive(Clone, Copy, Default)]
pub(crate) struct Tally {
    pub(crate) cases: u32,
    pub(crate) differ: u32,
}

impl Tally {
    // Counts a case that holds or differs.
    pub(crate) fn count(&mut self, holds: bool)
        ensures cases { self.new.cases ≡ min (self.old.cases + 1) (2 ^ 32 - 1) }
        ensures differ { self.new.differ ≡ (if holds then self.old.differ else min (self.old.differ + 1) (2 ^ 32 - 1)) }
    {
        self.cases = self.cases.saturating_add(1);
        if !holds {
            self.differ = self.differ.saturating_add(1);
        }
    }
}
