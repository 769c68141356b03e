// What the table keeps of a name: where its bytes lie, the operator it names, and the name before it in its bucket.
ghost use Rattle.std.specs.Prelude.{◌≡◌, ◌+◌, ◌≤◌, length};
ghost use Rattle.names.specs.Index.{name_in};

use objects::object::Span;
use objects::operator::Operator;

#[derive(Clone, Copy, Default)]
pub struct Entry {
    pub place: Span,
    pub operator: Option<Operator>,
    pub next: Option<u16>,
}

impl Entry {
    // The name, among the bytes of all names.
    pub(crate) fn name<'a>(&self, bytes: &'a [u8]) -> &'a [u8]
        requires { self.now.place.start + self.now.place.len ≤ length bytes.now }
        ensures { result.now ≡ name_in bytes.now self.now }
    {
        let start = usize::from(self.place.start);
        &bytes[start..start + usize::from(self.place.len)]
    }
}
