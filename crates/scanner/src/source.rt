// A source of bytes: a text and the place reached in it. Whoever reads it looks at the next byte, takes it, or asks why there is none.
ghost use Rattle.std.specs.Prelude.{◌≡◌};
ghost use Rattle.std.specs.Iterator.{YieldsFirst, item_count};
ghost use Rattle.scanner.specs.Sources.{to_come, taken, whole, first};
ghost use Rattle.scanner.specs.declared.source.Ending.TheVariants.{Ended};

// Why a source has no next byte.
// Kept: one variant today. Sources will later decode their bytes (docs/DECISIONS.md), and then there are other reasons to end.
#[derive(Clone, Copy, PartialEq, Eq, Debug)]
pub enum Ending {
    // the text came to its end
    Ended,
}

#[derive(Drop)]
pub struct Source<'t> {
    text: &'t [u8],
    place: usize,
}

impl<'t> Source<'t> {
    pub fn new(text: &'t [u8]) -> Source<'t>
        ensures ahead { to_come result ≡ text.now }
        ensures start { taken result ≡ 0 }
    {
        Source { text, place: 0 }
    }

    // The next byte, which stays in the source.
    pub fn look(&self) -> Option<u8>
        ensures { result ≡ first (to_come self.now) }
    {
        self.text.get(self.place).copied()
    }

    // How many bytes were taken.
    pub fn taken(&self) -> usize
        ensures { result ≡ taken self.now }
    {
        self.place
    }

    // Why no byte comes after the last.
    pub fn ending(&self) -> Ending
        ensures { result ≡ Ended }
    {
        Ending::Ended
    }
}

// Takes the bytes to come, one after the other.
impl Iterator for Source<'_> {
    type Item = u8;

    ghost next_gives = { λ s byte t. YieldsFirst to_come s byte t × (whole t ≡ whole s) };

    ghost remaining = { item_count to_come };

    fn next(&mut self) -> Option<u8> {
        let byte = self.look()?;
        self.place += 1;
        Some(byte)
    }
}
