// Calls on a group of operands from the top.
ghost use Rattle.std.specs.Prelude.{◌≡◌};
ghost use Rattle.objects.specs.Outcomes.{after, heard};
ghost use Rattle.stacks.specs.Stacked.{copied_top, rolled, Rolls};

use crate::operands::Operands;
use objects::fault::Fault;

impl Operands {
    // The top n once more, in the same order: all or nothing.
    #[tactic(auto, using(crate::proofs::Fronts::fronts))]
    pub fn copy_top(&mut self, n: usize) -> Result<(), Fault>
        ensures answer { result ≡ heard (copied_top n self.old) }
        ensures state { self.new ≡ after (copied_top n self.old) self.old }
    {
        let depth = self.counts.operands;
        let from = depth.checked_sub(n).ok_or(Fault::RangeCheck)?;
        if n > self.room() {
            return Err(Fault::StackOverflow);
        }
        self.objects.copy_within(from..depth, depth);
        self.counts.operands += n;
        Ok(())
    }

    // The top `by` of the top n go below the others of them. Nothing changes unless by is below n and there are n.
    pub fn roll(&mut self, n: usize, by: usize)
        ensures state { self.new ≡ rolled n by self.old }
        ensures law { Rolls n by self.old self.new }
    {
        let depth = self.counts.operands;
        if by < n && n <= depth {
            self.objects[depth - n..depth].rotate_right(by);
        }
    }
}
