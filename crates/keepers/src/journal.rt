// The journal keeper: before a slot's first change in a level, its old object is noted in a second memory.
ghost use Rattle.std.specs.Prelude.{◌≡◌, ℕ, ◌+◌, ◌*◌, ◌<◌, ◌≤◌, length, slice_index};
ghost use Rattle.keepers.specs.Kept.{level_limit};
ghost use Rattle.keepers.specs.Notes.{note_at};

use crate::note::Note;
use objects::object::Object;

pub mod keeping;

// Level k's notes lie in its part of the second memory, which begins at k times the slot count.
// Kept: no model, since what is proved of the steps names claims and notes, which a view would hide.
#[derive(Drop)]
pub struct Journal<'m> {
    slots: &'m mut [Object],
    bytes: &'m mut [u8],
    notes: &'m mut [Note],
    // how many notes each open level has
    // Kept: an array and how many are open. As an ArrayVec, a count is written through the slice that it lends, and the ghost fields below stayed open over that.
    counts: [usize; 15],
    opened: usize,
    limit: usize,
    ghost limited: { limit ≡ level_limit (length slots.now) (length notes.now) },
    ghost within: { opened ≤ limit },
    ghost counted: { (k : ℕ) → k < opened → slice_index counts k ≤ length slots.now },
    ghost named: { (k j : ℕ) → (k < opened) × (j < slice_index counts k) → (note_at notes.now (k * length slots.now + j)).slot < length slots.now },
    ghost claimed: { (k j : ℕ) → (k < opened) × (j < slice_index counts k) → (note_at notes.now (k * length slots.now + (note_at notes.now (k * length slots.now + j)).slot)).at ≡ j },
}
