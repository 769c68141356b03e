// Whether two texts are the same.
ghost use Rattle.std.specs.Prelude.{◌≡◌};
ghost use Rattle.std.specs.Str.{bytes_eq};
ghost use Rattle.text_operators.specs.Texts.{bytes_of};

use crate::text::Text;
use keepers::keeper::Keeper;
use memory::memory::Memory;

// Texts of different length are told apart at once.
pub fn same_text<K: Keeper>(memory: &Memory<K>, a: Text, b: Text) -> bool
    ensures { result ≡ bytes_eq (bytes_of a.entry memory.now) (bytes_of b.entry memory.now) }
{
    a.len() == b.len() && a.bytes(memory).eq(b.bytes(memory))
}
