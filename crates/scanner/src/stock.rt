// The elements of a token's procedures while it is read, in fixed memory.
ghost use Rattle.std.specs.Prelude.{◌≡◌, length, take};

use crate::element::Element;
use objects::front::front;

// Kept: how many of these places are in use stands in the counters, which the guard puts back.
#[derive(Drop)]
pub struct Stock {
    // the elements of closed procedures, in the order of their closing braces
    pub(crate) done: [Element; 512],
    // the elements of open procedures, outermost first
    pub(crate) pending: [Element; 512],
    // how many elements each open procedure has, outermost first
    pub(crate) sizes: [u16; 16],
    ghost places: { length done ≡ 512 },
}

impl Stock {
    pub const EMPTY: Stock = Stock {
        done: [Element::BLANK; 512],
        pending: [Element::BLANK; 512],
        sizes: [0; 16],
    };

    // What is to be written into the first so many slots that a token takes.
    pub fn slots(&self, count: u16) -> &[Element]
        ensures { result.now ≡ take count self.now.done }
    {
        front(&self.done, usize::from(count))
    }
}
