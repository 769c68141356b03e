// How many operands and open stopped frames there are: together never more than 500, so the boolean that a stopped frame leaves always has room.
ghost use Rattle.std.specs.Prelude.{◌+◌, ◌≤◌};

pub(crate) const MOST: usize = 500;

#[derive(Clone, Copy)]
pub struct Counts {
    pub(crate) operands: usize,
    pub(crate) stopped: usize,
    ghost within: { operands + stopped ≤ 500 },
}

impl Counts {
    pub(crate) const NONE: Counts = Counts {
        operands: 0,
        stopped: 0,
    };
}
