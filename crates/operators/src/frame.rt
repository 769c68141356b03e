// What is under way: the frames of the execution stack.
use objects::object::Span;

#[derive(Clone, Copy)]
pub enum Frame {
    // the elements that are left of a procedure
    Procedure(Span),
    // a next value outside the integers ends the loop
    For {
        next: Option<i32>,
        step: i32,
        limit: i32,
        body: Span,
    },
    Repeat {
        left: u32,
        body: Span,
    },
    Loop {
        body: Span,
    },
    // Kept: a variant for arrays and one for strings, since a frame says what it goes over; with one variant and a kind beside it, each reader would match the kind as well.
    ForallArray {
        left: Span,
        whole: Span,
        body: Span,
    },
    ForallString {
        left: Span,
        whole: Span,
        body: Span,
    },
    ForallDictionary {
        dictionary: u16,
        pair: u16,
        body: Span,
    },
    Stopped,
}
