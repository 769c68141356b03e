// The name table, in fixed memory, with an index by bucket.
use crate::entry::Entry;
use arrayvec::ArrayVec;
use std::marker::Model;

#[derive(Drop)]
pub struct NameTable {
    // The bytes of all names, one name after the other, and how many they are.
    // Kept: an array and a count, since the one generic `store` copies a new name's bytes into the array's places, lent as a slice.
    pub(crate) bytes: [u8; 8192],
    pub(crate) used: usize,
    pub(crate) entries: ArrayVec<Entry, 1024>,
    // The newest name of each bucket, which has the number of the one before it.
    // Kept: links by number, since a map of the library would need the heap.
    pub(crate) heads: [Option<u16>; 1024],
}

// Clauses see the names, in the order in which they joined, each as its bytes.
impl Model for NameTable {
    ghost use Rattle.std.specs.Prelude.{ℕ, List};
    ghost use Rattle.names.specs.Index.{names_in, Sound};

    ghost Value = { List (List ℕ) };

    ghost view = { λ table. names_in table.bytes table.entries.items };

    ghost invariant = { λ table. Sound table.bytes table.used table.entries.items table.heads };
}
