// How output is written, and how it is taken.
ghost use Rattle.std.specs.Prelude.{◌≡◌, ◌-◌, ◌≤◌, min, [], ◌∷◌, ◌++◌, length};
ghost use Rattle.objects.specs.Outcomes.{after, heard};
ghost use Rattle.stacks.specs.Printed.{appended, moved, left};

use crate::output::Output;
use objects::fault::Fault;

const MOST: usize = 4096;

impl Output {
    pub fn new() -> Output
        ensures { result ≡ [] }
    {
        Output {
            bytes: [0; MOST],
            len: 0,
        }
    }

    pub fn len(&self) -> usize
        ensures { result ≡ length self.now }
    {
        self.len
    }

    pub fn room(&self) -> usize
        ensures value { result ≡ 4096 - length self.now }
        ensures within { length self.now ≤ 4096 }
    {
        MOST - self.len
    }

    // All of the text, or none of it.
    pub fn write(&mut self, text: &[u8]) -> Result<(), Fault>
        ensures answer { result ≡ heard (appended text.now self.old) }
        ensures state { self.new ≡ after (appended text.now self.old) self.old }
    {
        if text.len() > self.room() {
            return Err(Fault::IoError);
        }
        let end = self.len + text.len();
        self.bytes[self.len..end].copy_from_slice(text);
        self.len = end;
        Ok(())
    }

    pub fn write_byte(&mut self, byte: u8) -> Result<(), Fault>
        ensures answer { result ≡ heard (appended (byte ∷ []) self.old) }
        ensures state { self.new ≡ after (appended (byte ∷ []) self.old) self.old }
    {
        self.write(&[byte])
    }

    // The text and a line feed, or nothing.
    pub fn write_line(&mut self, text: &[u8]) -> Result<(), Fault>
        ensures answer { result ≡ heard (appended (text.now ++ 10 ∷ []) self.old) }
        ensures state { self.new ≡ after (appended (text.now ++ 10 ∷ []) self.old) self.old }
    {
        if text.len() >= self.room() {
            return Err(Fault::IoError);
        }
        self.write(text)?;
        self.write(b"\n")
    }

    // Moves the oldest bytes to the front of the buffer, as many as fit, and answers how many.
    // The rest of the buffer stays as it was, and the rest of the output stays in order.
    pub fn take(&mut self, buffer: &mut [u8]) -> usize
        ensures answer { result ≡ min (length self.old) (length buffer.old) }
        ensures buffer { buffer.new ≡ moved self.old buffer.old }
        ensures state { self.new ≡ left self.old buffer.old }
    {
        let count = self.len.min(buffer.len());
        buffer[..count].copy_from_slice(&self.bytes[..count]);
        let waiting = &mut self.bytes[..self.len];
        match count {
            // the library rotates by one place in a single move of memory
            1 => waiting.rotate_left(1),
            _ => waiting.copy_within(count.., 0),
        }
        self.len -= count;
        count
    }
}
