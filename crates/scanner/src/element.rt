// What a token is made of, before memory is taken for it.
use objects::object::{Object, Span};

// An object that needs no memory; or a string or a procedure, whose place counts from the first byte or slot that the token will take.
#[derive(Clone, Copy, PartialEq, Eq, Debug)]
pub enum Element {
    Object(Object),
    String(Span),
    Procedure(Span),
}

impl Element {
    pub const BLANK: Element = Element::Object(Object::BLANK);
}
