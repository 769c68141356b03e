// What the operand stack answers without being changed.
ghost use Rattle.std.specs.Prelude.{◌≡◌, ◌+◌, ◌<◌, ◌≤◌, reverse, length, IfSome};
ghost use Rattle.std.specs.List.{position, slice_get};
ghost use Rattle.stacks.specs.Stacked.{room_in, is_mark, count_to_mark};

use crate::counts::MOST;
use crate::operands::Operands;
use objects::object::{Object, Value};

impl Operands {
    pub fn depth(&self) -> usize
        ensures value { result ≡ length self.now.objects }
        ensures bound { result ≤ 500 }
    {
        self.counts.operands
    }

    pub fn stopped(&self) -> usize
        ensures { result ≡ self.now.stopped }
    {
        self.counts.stopped
    }

    pub fn room(&self) -> usize
        ensures value { result ≡ room_in self.now }
        ensures within { length self.now.objects + self.now.stopped ≤ 500 }
    {
        MOST - (self.counts.operands + self.counts.stopped)
    }

    // The n-th operand from the top, which is the 0th.
    pub fn peek(&self, n: usize) -> Option<Object>
        ensures { result ≡ slice_get self.now.objects n }
    {
        let below = self.counts.operands.checked_sub(n)?;
        self.objects[..below].last().copied()
    }

    // How many operands lie above the topmost mark.
    pub fn count_to_mark(&self) -> Option<usize>
        ensures value { result ≡ count_to_mark self.now }
        ensures bound { IfSome result (λ n. n < 500) }
    {
        topmost_mark(&self.objects[..self.counts.operands])
    }
}

// How many objects lie behind the last mark.
fn topmost_mark(objects: &[Object]) -> Option<usize>
    ensures value { result ≡ position is_mark (reverse objects.now) }
    ensures within { IfSome result (λ n. n < length objects.now) }
{
    objects.iter().rev().position(|object| is_mark(*object))
}

fn is_mark(object: Object) -> bool
    ensures { result ≡ is_mark object }
{
    matches!(object.value, Value::Mark)
}
