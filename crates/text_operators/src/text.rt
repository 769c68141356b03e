// A text, read from where it lies.
ghost use Rattle.std.specs.Prelude.{◌≡◌, ◌+◌, ◌^◌, ◌<◌, length, slice_index, IfSome};
ghost use Rattle.std.specs.List.{slice_get};
ghost use Rattle.memory.specs.Memories.{InUse};
ghost use Rattle.operators.specs.Texts.{text_of};
ghost use Rattle.text_operators.specs.Texts.{bytes_of, rest};

use crate::text_bytes::TextBytes;
use keepers::keeper::Keeper;
use memory::memory::Memory;
use objects::decimal_text::DecimalText;
use objects::object::Span;
use operators::operand::StringSpan;

#[derive(Clone, Copy)]
pub enum Text<'a> {
    Plain(&'a [u8]),
    // the decimal text of an integer
    Integer(i32),
    // the bytes of a string, which lie in memory
    String(Span),
}

impl<'a> From<StringSpan> for Text<'a> {
    ghost from_gives = { λ s text. (m : InUse) → bytes_of text m ≡ text_of s m };

    fn from(string: StringSpan) -> Text<'a> {
        Text::String(string.0)
    }
}

impl<'a> Text<'a> {
    pub fn len(self) -> usize
        ensures { (m : InUse) → result ≡ length (bytes_of self.entry m) }
    {
        match self {
            Text::Plain(bytes) => bytes.len(),
            Text::Integer(number) => DecimalText::of(number).bytes().len(),
            Text::String(span) => usize::from(span.len),
        }
    }

    // A byte of the text, or 0 past its end.
    pub fn byte<K: Keeper>(self, memory: &Memory<K>, i: usize) -> u8
        ensures { result ≡ slice_index (bytes_of self.entry memory.now) i }
    {
        self.get(memory, i).unwrap_or(0)
    }

    // A byte of the text, if there is one; then the place after it is a number of 64 bits too.
    pub(crate) fn get<K: Keeper>(self, memory: &Memory<K>, i: usize) -> Option<u8>
        ensures byte { result ≡ slice_get (bytes_of self.entry memory.now) i }
        ensures fits { IfSome result (λ _. i + 1 < 2 ^ 64) }
    {
        match self {
            Text::Plain(bytes) => bytes.get(i).copied(),
            Text::Integer(number) => DecimalText::of(number).bytes().get(i).copied(),
            Text::String(span) => {
                if i < usize::from(span.len) {
                    Some(memory.byte(usize::from(span.start) + i))
                } else {
                    None
                }
            }
        }
    }

    // The bytes of the text, one after the other.
    pub fn bytes<'m, 'k, K: Keeper>(self, memory: &'m Memory<'k, K>) -> TextBytes<'a, 'm, 'k, K>
        ensures { rest result ≡ bytes_of self.entry memory.now }
    {
        TextBytes {
            text: self,
            memory,
            at: 0,
        }
    }
}
