// A token, and the memory that it needs: so many slots for its procedures and so many bytes for its strings.
use crate::element::Element;

#[derive(Clone, Copy, PartialEq, Eq, Debug)]
pub struct Token {
    pub element: Element,
    pub slots: u16,
    pub bytes: u16,
}
