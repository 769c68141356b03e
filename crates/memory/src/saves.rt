// The open saves of a memory, in fixed room.
ghost use Rattle.std.specs.Prelude.{◌≡◌, ◌+◌, ◌<◌, [], ◌∷◌, ◌++◌, length, IfSome};
ghost use Rattle.memory.specs.Saving.{save_place};

use arrayvec::ArrayVec;

// What a save records besides the level that it opens.
#[derive(Clone, Copy, Default)]
pub struct Saved {
    pub number: u16,
    pub slot_top: u16,
    pub byte_top: u16,
}

// The open saves, oldest first, and how many saves were ever made.
#[derive(Drop)]
pub struct Saves {
    pub(crate) open: ArrayVec<Saved, 15>,
    pub(crate) made: u16,
}

impl Saves {
    // No save made yet.
    pub fn new() -> Saves
        ensures saves { result.open.items ≡ [] }
        ensures made { result.made ≡ 0 }
    {
        Saves {
            open: ArrayVec::new(),
            made: 0,
        }
    }

    // Which open save, counted from the oldest, has the number.
    pub fn place(&self, number: u16) -> Option<usize>
        ensures value { result ≡ save_place number self.now.open.items }
        ensures inside { IfSome result (λ i. i < length self.now.open.items) }
    {
        self.open.iter().position(|saved| saved.number == number)
    }

    // Records one save more.
    pub(crate) fn add(&mut self, slot_top: u16, byte_top: u16)
        requires few { length self.old.open.items < 15 }
        requires numbered { self.old.made < 65535 }
        ensures saves { self.new.open.items ≡ self.old.open.items ++ (record { number = self.old.made + 1; slot_top = slot_top; byte_top = byte_top }) ∷ [] }
        ensures made { self.new.made ≡ self.old.made + 1 }
    {
        self.made += 1;
        self.open.push(Saved {
            number: self.made,
            slot_top,
            byte_top,
        });
    }
}
