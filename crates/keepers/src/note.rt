// One record of the journal's second memory.
use objects::object::Object;

// A level's part of the second memory serves two ends at once. Its record j is note j of the level: `slot` is the
// changed slot and `old` what it held when the level was opened. Its record i says by `at` which note slot i has, if
// it has one: the claim counts only if there is a note of that number and it names slot i, so that a part never has
// to be cleared and may hold anything when it is lent.
#[derive(Clone, Copy)]
pub struct Note {
    pub slot: usize,
    pub old: Object,
    pub at: usize,
}

impl Note {
    pub const BLANK: Note = Note {
        slot: 0,
        old: Object::BLANK,
        at: 0,
    };
}

// A slot's record in an open level's part of the second memory, which begins at `base`.
#[derive(Clone, Copy)]
pub(crate) struct Entry {
    pub(crate) level: usize,
    pub(crate) base: usize,
    pub(crate) slot: usize,
}
