// What the pieces of a token do to the procedures that are open.
ghost use Rattle.std.specs.Prelude.{◌≡◌, ◌+◌, ◌≤◌, ◌++◌, length, take, drop};
ghost use Rattle.scanner.specs.Stocks.{procedures, opened, ended_element, closed, finished, heard};

use crate::element::Element;
use crate::stock::Stock;
use crate::tally::Tally;
use objects::fault::Fault;
use objects::object::Span;
use std::ops::ControlFlow;

const DEEPEST: u16 = 16;

const MOST_ELEMENTS: u16 = 512;

// What a piece leads to: more of the token is to come, or reading breaks off with the element that is the token, or with none, where the text ends before it.
pub type Progress = ControlFlow<Option<Element>>;

// Copies `len` elements, the first of them from `start`, into the places from `at` on.
fn copy_over(into: &mut [Element], at: usize, from: &[Element], start: usize, len: usize)
    requires there { at + len ≤ length into.old }
    requires here { start + len ≤ length from.now }
    ensures { take (at + len) into.new ≡ take at into.old ++ take len (drop start from.now) }
{
    into[at..at + len].copy_from_slice(&from[start..start + len]);
}

impl Stock {
    // A procedure begins.
    #[tactic(auto, using(crate::proofs::Stocks::pieces))]
    pub fn open(&mut self, tally: &mut Tally) -> Result<Progress, Fault>
        ensures { heard self.new tally.new result ≡ opened (procedures self.old tally.old) }
    {
        if tally.depth >= DEEPEST {
            return Err(Fault::LimitCheck);
        }
        self.sizes[usize::from(tally.depth)] = 0;
        tally.depth += 1;
        Ok(ControlFlow::Continue(()))
    }

    // An element ends: outside of procedures it is the token.
    #[tactic(auto, using(crate::proofs::Stocks::pieces))]
    pub fn end_element(&mut self, tally: &mut Tally, element: Element) -> Result<Progress, Fault>
        ensures { heard self.new tally.new result ≡ ended_element element (procedures self.old tally.old) }
    {
        if tally.depth == 0 {
            return Ok(ControlFlow::Break(Some(element)));
        }
        if tally.done + tally.pending >= MOST_ELEMENTS {
            return Err(Fault::LimitCheck);
        }
        let innermost = usize::from(tally.depth - 1);
        self.sizes[innermost] = self.sizes[innermost].saturating_add(1);
        self.pending[usize::from(tally.pending)] = element;
        tally.pending += 1;
        Ok(ControlFlow::Continue(()))
    }

    // A procedure ends: its elements are done, and it is an element of the procedure around it.
    pub fn close(&mut self, tally: &mut Tally) -> Result<Progress, Fault>
        ensures { heard self.new tally.new result ≡ closed (procedures self.old tally.old) }
    {
        if tally.depth == 0 {
            return Err(Fault::SyntaxError);
        }
        let done = tally.done;
        let pending = tally.pending;
        let start = pending.saturating_sub(self.sizes[usize::from(tally.depth - 1)]);
        let len = pending - start;
        copy_over(
            &mut self.done,
            usize::from(done),
            &self.pending,
            usize::from(start),
            usize::from(len),
        );
        tally.pending = start;
        tally.done += len;
        tally.depth -= 1;
        self.end_element(tally, Element::Procedure(Span { start: done, len }))
    }

    // The text ends.
    pub fn end(&self, tally: &Tally) -> Result<Progress, Fault>
        ensures { heard self.now tally.now result ≡ finished (procedures self.now tally.now) }
    {
        if tally.depth == 0 {
            Ok(ControlFlow::Break(None))
        } else {
            Err(Fault::SyntaxError)
        }
    }
}
