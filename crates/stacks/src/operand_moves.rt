// What changes the operand stack.
ghost use Rattle.std.specs.Prelude.{◌≡◌};
ghost use Rattle.objects.specs.Outcomes.{after, heard};
ghost use Rattle.stacks.specs.Stacked.{empty, pushed, pushed_two, pushed_all, discarded, replaced, written, cleared, opened, settled};

use crate::counts::Counts;
use crate::operands::Operands;
use objects::fault::Fault;
use objects::object::Object;

impl Operands {
    pub fn new() -> Operands
        ensures { result ≡ empty }
    {
        Operands {
            objects: [Object::BLANK; 500],
            counts: Counts::NONE,
        }
    }

    pub fn push(&mut self, object: Object) -> Result<(), Fault>
        ensures answer { result ≡ heard (pushed object self.old) }
        ensures state { self.new ≡ after (pushed object self.old) self.old }
    {
        self.push_all([object])
    }

    // Two operands, or neither.
    pub fn push_two(&mut self, below: Object, top: Object) -> Result<(), Fault>
        ensures answer { result ≡ heard (pushed_two below top self.old) }
        ensures state { self.new ≡ after (pushed_two below top self.old) self.old }
    {
        self.push_all([below, top])
    }

    // So many operands, the lowest first, or none.
    #[tactic(auto, using(crate::proofs::Fronts::fronts))]
    fn push_all<const N: usize>(&mut self, objects: [Object; N]) -> Result<(), Fault>
        ensures answer { result ≡ heard (pushed_all objects.entry self.old) }
        ensures state { self.new ≡ after (pushed_all objects.entry self.old) self.old }
    {
        if self.room() < N {
            return Err(Fault::StackOverflow);
        }
        let at = self.counts.operands;
        self.objects[at..at + N].copy_from_slice(&objects);
        self.counts.operands += N;
        Ok(())
    }

    // Drops n operands from the top, or all if there are no more.
    #[tactic(auto, using(crate::proofs::Fronts::fronts))]
    pub fn discard(&mut self, n: usize)
        ensures { self.new ≡ discarded n self.old }
    {
        self.counts.operands = self.counts.operands.saturating_sub(n);
    }

    // One object for the top n. Nothing changes where n is 0 or there are not as many.
    #[tactic(auto, using(crate::proofs::Fronts::fronts))]
    pub fn replace(&mut self, n: usize, object: Object)
        ensures { self.new ≡ replaced n object self.old }
    {
        let depth = self.counts.operands;
        if 0 < n && n <= depth {
            self.objects[depth - n] = object;
            self.counts.operands = depth - n + 1;
        }
    }

    // The n-th operand from the top becomes the object. Nothing changes where there is none.
    #[tactic(auto, using(crate::proofs::Fronts::fronts))]
    pub fn set(&mut self, n: usize, object: Object)
        ensures { self.new ≡ written n object self.old }
    {
        let depth = self.counts.operands;
        if n < depth {
            self.objects[depth - 1 - n] = object;
        }
    }

    pub fn clear(&mut self)
        ensures { self.new ≡ cleared self.old }
    {
        self.counts.operands = 0;
    }

    pub fn clear_all(&mut self)
        ensures { self.new ≡ empty }
    {
        self.counts = Counts::NONE;
    }

    // A stopped frame opens, for the top operand, whose place is then kept free for what the frame leaves.
    pub fn open_stopped(&mut self)
        ensures { self.new ≡ opened self.old }
    {
        if self.counts.operands > 0 {
            self.counts.operands -= 1;
            self.counts.stopped += 1;
        }
    }

    // A stopped frame closes and leaves a boolean, for which a place was kept free. Nothing changes where none is open.
    pub fn settle(&mut self, value: bool)
        ensures { self.new ≡ settled value self.old }
    {
        if self.counts.stopped > 0 {
            self.objects[self.counts.operands] = Object::from(value);
            self.counts.stopped -= 1;
            self.counts.operands += 1;
        }
    }
}
