// The journal keeper's calls.
ghost use Rattle.std.specs.Prelude.{◌≡◌, ◌+◌, ◌-◌, ◌*◌, ◌<◌, ◌≤◌, false, length, IfSome, IfNone};
ghost use Rattle.objects.specs.declared.object.Object.{Object};
ghost use Rattle.keepers.specs.Journals.{journal_kept, has_newest, claims_next, OfNewest, Prepared, PlayedBack};
ghost use Rattle.keepers.specs.Kept.{fresh, level_limit};

use super::Journal;
use crate::keeper::Keeper;
use crate::limit::level_limit;
use crate::note::{Entry, Note};
use objects::fault::Fault;
use objects::object::Object;
use objects::store::{load, store};

impl<'m> Journal<'m> {
    // A journal over lent memory of any length and with any contents.
    #[tactic(auto, unfolding(crate::specs::Notes::noted_levels))]
    pub fn new(slots: &'m mut [Object], bytes: &'m mut [u8], notes: &'m mut [Note]) -> Journal<'m>
        ensures { journal_kept result ≡ fresh slots.old bytes.old (level_limit (length slots.old) (length notes.old)) }
    {
        let limit = level_limit(slots.len(), notes.len());
        Journal {
            slots,
            bytes,
            notes,
            counts: [0; 15],
            opened: 0,
            limit,
        }
    }
}

impl Journal<'_> {
    // Where an open level's part of the second memory begins.
    fn part(&self, level: usize) -> usize
        requires { level < self.now.opened }
        ensures value { result ≡ level * length self.now.slots.now }
        ensures room { result + length self.now.slots.now ≤ length self.now.notes.now }
        ensures few { self.now.opened ≤ 15 }
    {
        // named for the proof alone: it brings what the type says of the notes (its ghost fields) into it
        let _ = self.notes.len();
        level * self.slots.len()
    }

    // The slot's entry in the newest level's part, if a level is open.
    fn newest_entry(&self, slot: usize) -> Option<Entry>
        requires { slot < length self.now.slots.now }
        ensures some { IfSome result (λ e. OfNewest self.now e × (e.slot ≡ slot)) }
        ensures none { IfNone result (self.now.opened ≡ 0) }
    {
        let level = self.opened.checked_sub(1)?;
        let base = self.part(level);
        Some(Entry { level, base, slot })
    }

    // Whether the newest level has a note of the slot.
    fn has_note(&self, entry: Entry) -> bool
        requires { OfNewest self.now entry }
        ensures { result ≡ has_newest self.now entry.slot }
    {
        let Entry { level, base, slot } = entry;
        let claim = self.notes[base + slot].at;
        claim < self.counts[level] && self.notes[base + claim].slot == slot
    }

    // Claims the next note of the newest level for the slot, which has none yet.
    fn claim_note(&mut self, entry: Entry)
        requires newest { OfNewest self.old entry }
        requires free { has_newest self.old entry.slot ≡ false }
        ensures newest { OfNewest self.new entry }
        ensures claims { claims_next self.new entry.slot }
        ensures same { journal_kept self.new ≡ journal_kept self.old }
    {
        let Entry { level, base, slot } = entry;
        self.notes[base + slot].at = self.counts[level];
    }

    // Takes the claimed note: the slot's object, as it is now, for the newest level.
    fn take_note(&mut self, entry: Entry)
        requires newest { OfNewest self.old entry }
        requires claimed { claims_next self.old entry.slot }
        ensures { Prepared entry.slot self.old self.new }
    {
        let Entry { level, base, slot } = entry;
        let count = self.counts[level];
        let place = base + count;
        self.notes[place] = Note {
            slot,
            old: self.slots[slot],
            ..self.notes[place]
        };
        self.counts[level] = count + 1;
    }

    // Makes the slot ready for a change: the newest level has a note of it.
    fn prepare(&mut self, slot: usize)
        requires { slot < length self.old.slots.now }
        ensures { Prepared slot self.old self.new }
    {
        let Some(entry) = self.newest_entry(slot) else {
            return;
        };
        if self.has_note(entry) {
            return;
        }
        self.claim_note(entry);
        self.take_note(entry);
    }

    // Plays back a level's notes, the newest first.
    fn play_back(&mut self, level: usize)
        requires { level < self.old.opened }
        ensures { PlayedBack level self.old self.new }
    {
        let base = self.part(level);
        // Kept: the index, since notes and slots can't both be lent out of `self` at once (the borrow checker has no rule for it).
        for j in (0..self.counts[level]).rev() {
            let note = self.notes[base + j];
            self.slots[note.slot] = note.old;
        }
    }
}

impl Keeper for Journal<'_> {
    ghost kept = { journal_kept };

    fn slot(&self, at: usize) -> Result<Object, Fault> {
        load(self.slots, at)
    }

    fn byte(&self, at: usize) -> Result<u8, Fault> {
        load(self.bytes, at)
    }

    fn put_slot(&mut self, at: usize, object: Object) -> Result<(), Fault> {
        if at >= self.slots.len() {
            return Err(Fault::RangeCheck);
        }
        self.prepare(at);
        store(self.slots, at, object)
    }

    fn put_byte(&mut self, at: usize, byte: u8) -> Result<(), Fault> {
        store(self.bytes, at, byte)
    }

    fn slot_count(&self) -> usize {
        self.slots.len()
    }

    fn byte_count(&self) -> usize {
        self.bytes.len()
    }

    fn level_limit(&self) -> usize {
        self.limit
    }

    #[tactic(auto, using(crate::proofs::Undoing::length_levels))]
    fn open_levels(&self) -> usize {
        self.opened
    }

    fn open_level(&mut self) -> Result<(), Fault> {
        if self.opened >= self.limit {
            return Err(Fault::LimitCheck);
        }
        self.counts[self.opened] = 0;
        self.opened += 1;
        Ok(())
    }

    fn back_to(&mut self, level: usize) -> Result<(), Fault> {
        if level >= self.opened {
            return Err(Fault::InvalidRestore);
        }
        for newest in (level..self.opened).rev() {
            self.play_back(newest);
        }
        self.opened = level;
        Ok(())
    }
}
