// A column of the listing: what a slot holds, or a dash where it holds no such thing.
use std::fmt;

#[derive(Clone, Copy)]
pub struct Column<T>(pub Option<T>);

impl<T: fmt::Display> fmt::Display for Column<T> {
    fn fmt<W: fmt::Write>(&self, f: &mut fmt::Formatter<W>) -> fmt::Result {
        // Kept: a match, since what is held and the dash for none have no type in common.
        match &self.0 {
            Some(held) => held.fmt(f),
            None => f.pad("-"),
        }
    }
}
