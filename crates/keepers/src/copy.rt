// The copy keeper: opening a level copies all slots into a second memory.
ghost use Rattle.std.specs.Prelude.{◌≡◌, ◌+◌, ◌*◌, ◌≤◌, min, length, take, drop, slice_set};
ghost use Rattle.std.proofs.Math.Seq.{paste};
ghost use Rattle.keepers.specs.Kept.{fresh, level_limit};
ghost use Rattle.keepers.specs.Copies.{copies_kept, copies_limit};

use crate::keeper::Keeper;
use crate::limit::level_limit;
use objects::fault::Fault;
use objects::object::Object;
use objects::store::{load, store};

// Level k's copy begins at place k times the slot count of the second memory.
// Its open levels are the smaller of `opened` and the limit, so any contents of the fields stand for something.
// Kept: no model, since what is proved of the steps names the places of the copies, which a view would hide.
#[derive(Drop)]
pub struct CopyKeeper<'m> {
    slots: &'m mut [Object],
    bytes: &'m mut [u8],
    copies: &'m mut [Object],
    opened: usize,
}

impl<'m> CopyKeeper<'m> {
    // Stands for the memories as lent, with no level open.
    #[tactic(auto, unfolding(crate::specs::Copies::copy_levels))]
    pub fn new(
        slots: &'m mut [Object],
        bytes: &'m mut [u8],
        copies: &'m mut [Object],
    ) -> CopyKeeper<'m>
        ensures { copies_kept result ≡ fresh slots.old bytes.old (level_limit (length slots.old) (length copies.old)) }
    {
        CopyKeeper {
            slots,
            bytes,
            copies,
            opened: 0,
        }
    }

    fn limit(&self) -> usize
        ensures value { result ≡ copies_limit self.now }
        ensures room { result * length self.now.slots.now ≤ length self.now.copies.now }
    {
        level_limit(self.slots.len(), self.copies.len())
    }

    // The number of open levels.
    fn depth(&self) -> usize
        ensures value { result ≡ min self.now.opened (copies_limit self.now) }
        ensures room { result * length self.now.slots.now ≤ length self.now.copies.now }
    {
        self.opened.min(self.limit())
    }

    // Copies all slots into the second memory, from a place on.
    fn copy_slots(&mut self, from: usize)
        requires { from + length self.old.slots.now ≤ length self.old.copies.now }
        ensures slots { self.new.slots.now ≡ self.old.slots.now }
        ensures bytes { self.new.bytes.now ≡ self.old.bytes.now }
        ensures opened { self.new.opened ≡ self.old.opened }
        ensures copies { self.new.copies.now ≡ paste self.old.copies.now from self.old.slots.now (length self.old.slots.now) }
    {
        // Kept: the index, since slots and copies can't both be lent out of `self` at once (the borrow checker has no rule for it).
        for i in 0..self.slots.len() {
            let object = self.slots[i];
            copy_one(self.copies, from, i, object);
        }
    }

    // Writes the slots in place from the copy that begins at a place.
    fn write_back(&mut self, from: usize)
        requires { from + length self.old.slots.now ≤ length self.old.copies.now }
        ensures slots { self.new.slots.now ≡ take (length self.old.slots.now) (drop from self.old.copies.now) }
        ensures bytes { self.new.bytes.now ≡ self.old.bytes.now }
        ensures opened { self.new.opened ≡ self.old.opened }
        ensures copies { self.new.copies.now ≡ self.old.copies.now }
    {
        // Kept: the index and no `copy_from_slice`, since slots and copies can't both be lent out of `self` at once (the borrow checker has no rule for it).
        for i in 0..self.slots.len() {
            let object = self.copies[from + i];
            self.slots[i] = object;
        }
    }
}

// Lends on the part of the second memory from a place, and stores a copy of the object in it.
fn copy_one(copies: &mut [Object], from: usize, at: usize, object: Object)
    requires { from ≤ length copies.old }
    ensures { copies.new ≡ slice_set copies.old (from + at) object }
{
    let _ = store(&mut copies[from..], at, object);
}

impl Keeper for CopyKeeper<'_> {
    ghost kept = { copies_kept };

    fn slot(&self, at: usize) -> Result<Object, Fault> {
        load(self.slots, at)
    }

    fn byte(&self, at: usize) -> Result<u8, Fault> {
        load(self.bytes, at)
    }

    fn put_slot(&mut self, at: usize, object: Object) -> Result<(), Fault> {
        store(self.slots, at, object)
    }

    fn put_byte(&mut self, at: usize, byte: u8) -> Result<(), Fault> {
        store(self.bytes, at, byte)
    }

    fn slot_count(&self) -> usize {
        self.slots.len()
    }

    fn byte_count(&self) -> usize {
        self.bytes.len()
    }

    fn level_limit(&self) -> usize {
        self.limit()
    }

    #[tactic(auto, using(crate::proofs::Copying::length_copy_levels))]
    fn open_levels(&self) -> usize {
        self.depth()
    }

    fn open_level(&mut self) -> Result<(), Fault> {
        let limit = self.limit();
        let depth = self.depth();
        if depth >= limit {
            return Err(Fault::LimitCheck);
        }
        let count = self.slots.len();
        self.copy_slots(depth * count);
        self.opened = depth + 1;
        Ok(())
    }

    fn back_to(&mut self, level: usize) -> Result<(), Fault> {
        let depth = self.depth();
        if level >= depth {
            return Err(Fault::InvalidRestore);
        }
        let count = self.slots.len();
        self.write_back(level * count);
        self.opened = level;
        Ok(())
    }
}
