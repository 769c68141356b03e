// What is newer than a save, so that a way back to it would leave it dangling.
ghost use Rattle.std.specs.Prelude.{◌≡◌};
ghost use Rattle.memory.specs.Newer.{from_top, newer, any_newer, AnyNewer};

use crate::saves::Saved;
use objects::object::{Object, Span, Value};

// A span of at least one place that starts at a top or above it.
fn from_top(top: u16, span: Span) -> bool
    ensures { result ≡ from_top top span }
{
    span.len > 0 && span.start >= top
}

impl Saved {
    pub fn is_older_than(self, object: Object) -> bool
        ensures { result ≡ newer self object.value }
    {
        match object.value {
            Value::Array(span) => from_top(self.slot_top, span),
            Value::String(span) => from_top(self.byte_top, span),
            Value::Dictionary(start) => start >= self.slot_top,
            Value::Save(number) => number >= self.number,
            _ => false,
        }
    }

    pub fn is_older_than_any(self, objects: &[Object]) -> bool
        ensures value { result ≡ any_newer self objects.now }
        ensures any { AnyNewer self objects.now result }
    {
        objects.iter().any(|object| self.is_older_than(*object))
    }
}
