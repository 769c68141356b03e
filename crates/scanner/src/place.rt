// How many bytes were taken from sources since set up.
ghost use Rattle.std.specs.Prelude.{◌≡◌, ◌+◌};
ghost use Rattle.scanner.specs.Sources.{at_most_last_place};

#[derive(Clone, Copy, PartialEq, Eq, Debug)]
pub struct Place {
    pub taken: u32,
}

impl Place {
    pub const START: Place = Place { taken: 0 };

    // Counts more bytes. The sum stops at 4,294,967,295.
    pub fn pass(&mut self, bytes: usize)
        ensures { self.new.taken ≡ at_most_last_place (self.old.taken + bytes) }
    {
        let more = u32::try_from(bytes).unwrap_or(u32::MAX);
        self.taken = self.taken.saturating_add(more);
    }
}
