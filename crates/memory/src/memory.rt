// Memory in use over any keeper: the slots and bytes below the two tops.
ghost use Rattle.std.specs.Prelude.{◌≡◌, slice_index, slice_index_or};
ghost use Rattle.keepers.specs.Kept.{blank};
ghost use Rattle.objects.specs.Outcomes.{after, heard, answered};
ghost use Rattle.memory.specs.Memories.{slots, bytes, room, with_cell, end_of, taken, appended, with_slot, with_byte, take_slots, take_bytes, has_room, unused};
ghost use Rattle.memory.specs.Taken.{Taken};

use crate::cell::Cell;
use crate::run::Run;
use crate::saves::Saves;
use keepers::keeper::Keeper;
use objects::fault::Fault;
use objects::object::Object;
use std::marker::Model;

#[derive(Drop)]
pub struct Memory<'k, K: Keeper> {
    pub(crate) keeper: &'k mut K,
    pub(crate) slot_top: u16,
    pub(crate) byte_top: u16,
    pub(crate) saves: Saves,
}

impl<'k, K: Keeper> Model for Memory<'k, K> {
    ghost use Rattle.memory.specs.Memories.{InUse};

    ghost Value = { InUse };

    ghost view = { λ m. record {
      kept = K.Keeper.kept m.keeper.now;
      slot_top = m.slot_top;
      byte_top = m.byte_top;
      saves = m.saves.open.items;
      made = m.saves.made;
    } };
}

impl<'k, K: Keeper> Memory<'k, K> {
    // Memory over a keeper, with nothing in use and no save made.
    pub fn new(keeper: &'k mut K) -> Memory<'k, K>
        ensures { result ≡ unused (K.Keeper.kept keeper.old) }
    {
        Memory {
            keeper,
            slot_top: 0,
            byte_top: 0,
            saves: Saves::new(),
        }
    }
}

impl<K: Keeper> Memory<'_, K> {
    // One cell; past the end of memory it reads as empty.
    pub fn get<C: Cell>(&self, at: usize) -> C
        ensures { result ≡ slice_index_or (C.Cell.part.cells self.now.kept) at C.Cell.part.empty }
    {
        C::get(self.keeper, at).unwrap_or_default()
    }

    // Sets one cell; past the end of memory nothing is set.
    pub fn set<C: Cell>(&mut self, at: usize, cell: C)
        ensures { self.new ≡ with_cell C.Cell.part at cell self.old }
    {
        C::put(self.keeper, at, cell);
    }

    // How many cells may be in use: all of them, as far as 16 bits count.
    pub fn room<C: Cell>(&self) -> usize
        ensures { result ≡ room C.Cell.part self.now }
    {
        C::count(self.keeper).min(65535)
    }

    // The top after so many cells more.
    fn end_of<C: Cell>(&self, more: u32) -> Result<u16, Fault>
        ensures { result ≡ end_of C.Cell.part more self.now }
    {
        let end = usize::from(C::top(self)) + more as usize;
        if end <= self.room::<C>() {
            Ok(end as u16)
        } else {
            Err(Fault::VmError)
        }
    }

    // Private, so that nothing outside this crate lowers a top.
    fn set_top<C: Cell>(&mut self, top: u16)
        ensures { self.new ≡ C.Cell.part.with_top top self.old }
    {
        match C::run() {
            Run::Slots => self.slot_top = top,
            Run::Bytes => self.byte_top = top,
        }
    }

    // Whether so many slots and bytes could be taken.
    pub fn has_room(&self, slots: u16, bytes: u16) -> bool
        ensures { result ≡ has_room slots bytes self.now }
    {
        self.end_of::<Object>(slots.into()).is_ok() && self.end_of::<u8>(bytes.into()).is_ok()
    }

    // Takes the next cells, all empty, and answers where they start.
    pub fn take<C: Cell>(&mut self, count: u32) -> Result<u16, Fault>
        ensures answer { result ≡ answered (taken C.Cell.part count self.old) (C.Cell.part.top self.old) }
        ensures state { self.new ≡ after (taken C.Cell.part count self.old) self.old }
        ensures below { Taken C.Cell.part self.old self.new }
    {
        let start = C::top(self);
        let end = self.end_of::<C>(count)?;
        for at in start..end {
            self.set(usize::from(at), C::default());
        }
        self.set_top::<C>(end);
        Ok(start)
    }

    // Takes the next cell for what it is to hold.
    pub fn append<C: Cell>(&mut self, cell: C) -> Result<(), Fault>
        ensures answer { result ≡ heard (appended C.Cell.part cell self.old) }
        ensures state { self.new ≡ after (appended C.Cell.part cell self.old) self.old }
    {
        let at = C::top(self);
        let next = self.end_of::<C>(1)?;
        self.set(usize::from(at), cell);
        self.set_top::<C>(next);
        Ok(())
    }

    // One slot or one byte, and slots or bytes taken: the calls above, each at its type.
    // Kept: names of their own, since `slot(at)` and `take_slots(n)` say which part is meant, where `get` and `take` leave it to the type.
    pub fn slot(&self, at: usize) -> Object
        ensures { result ≡ slice_index_or self.now.kept.slots at blank }
    {
        self.get(at)
    }

    pub fn byte(&self, at: usize) -> u8
        ensures { result ≡ slice_index self.now.kept.bytes at }
    {
        self.get(at)
    }

    pub fn set_slot(&mut self, at: usize, object: Object)
        ensures { self.new ≡ with_slot at object self.old }
    {
        self.set(at, object);
    }

    pub fn set_byte(&mut self, at: usize, byte: u8)
        ensures { self.new ≡ with_byte at byte self.old }
    {
        self.set(at, byte);
    }

    pub fn take_slots(&mut self, count: u32) -> Result<u16, Fault>
        ensures answer { result ≡ answered (take_slots count self.old) self.old.slot_top }
        ensures state { self.new ≡ after (take_slots count self.old) self.old }
        ensures below { Taken slots self.old self.new }
    {
        self.take::<Object>(count)
    }

    pub fn take_bytes(&mut self, count: u32) -> Result<u16, Fault>
        ensures answer { result ≡ answered (take_bytes count self.old) self.old.byte_top }
        ensures state { self.new ≡ after (take_bytes count self.old) self.old }
        ensures below { Taken bytes self.old self.new }
    {
        self.take::<u8>(count)
    }
}
