// The bytes of a string.
ghost use Rattle.std.specs.Prelude.{◌≡◌, ◌≤◌, take};
ghost use Rattle.operators.specs.Texts.{text_of};

use keepers::keeper::Keeper;
use memory::memory::Memory;
use objects::object::Span;

pub(crate) const LONGEST_NAME: usize = 128;

// The bytes of a string that is no longer than a name, at the front of a buffer.
// Kept: a loop over the string's own bytes, since `from_fn` would make a call for each of the 128 places.
pub(crate) fn gathered<K: Keeper>(memory: &Memory<K>, string: Span) -> [u8; LONGEST_NAME]
    requires { string.len ≤ 128 }
    ensures { take string.len result ≡ text_of string memory.now }
{
    let mut buffer = [0; LONGEST_NAME];
    for i in 0..usize::from(string.len) {
        buffer[i] = memory.byte(usize::from(string.start) + i);
    }
    buffer
}
