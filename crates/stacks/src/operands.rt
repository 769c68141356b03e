// The operand stack, with the count of open stopped frames, for each of which a place is kept free.
use crate::counts::Counts;
use objects::object::Object;
use std::marker::Model;

#[derive(Drop)]
pub struct Operands {
    // the lowest operand first
    // Kept: an array beside the counts, since the places that open stopped frames keep free are counted in the same record.
    pub(crate) objects: [Object; 500],
    pub(crate) counts: Counts,
}

// Clauses see the operands, top first, and how many stopped frames are open.
impl Model for Operands {
    ghost use Rattle.std.specs.Prelude.{◌≡◌, reverse, take, length};
    ghost use Rattle.stacks.specs.Stacked.{Stacked};

    ghost Value = { Stacked };

    ghost view = { λ s. record { objects = reverse (take s.counts.operands s.objects); stopped = s.counts.stopped } };

    ghost invariant = { λ s. length s.objects ≡ 500 };
}
