// The output that was written and not yet taken, oldest byte first, in fixed memory.
use std::marker::Model;

#[derive(Drop)]
pub struct Output {
    // the oldest byte first; what stands in the free places is never seen
    // Kept: an array and how many are in use, since an `ArrayVec` writes a blank over each place that it gives up, so that taking would cost that at every byte.
    pub(crate) bytes: [u8; 4096],
    pub(crate) len: usize,
}

// Clauses see the bytes, oldest first.
impl Model for Output {
    ghost use Rattle.std.specs.Prelude.{◌≡◌, ◌≤◌, ℕ, List, length, take};

    ghost Value = { List ℕ };

    ghost view = { λ o. take o.len o.bytes };

    ghost invariant = { λ o. (o.len ≤ 4096) × (length o.bytes ≡ 4096) };
}
