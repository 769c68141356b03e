// The bytes of a text, one after the other, wherever they lie.
ghost use Rattle.std.specs.Iterator.{YieldsFirst, item_count};
ghost use Rattle.text_operators.specs.Texts.{rest};

use crate::text::Text;
use keepers::keeper::Keeper;
use memory::memory::Memory;

#[derive(Drop)]
pub struct TextBytes<'a, 'm, 'k, K: Keeper> {
    pub(crate) text: Text<'a>,
    pub(crate) memory: &'m Memory<'k, K>,
    pub(crate) at: usize,
}

impl<'a, 'm, 'k, K: Keeper> Iterator for TextBytes<'a, 'm, 'k, K> {
    type Item = u8;

    ghost next_gives = { YieldsFirst rest };

    ghost remaining = { item_count rest };

    fn next(&mut self) -> Option<u8> {
        let byte = self.text.get(self.memory, self.at)?;
        self.at += 1;
        Some(byte)
    }
}
