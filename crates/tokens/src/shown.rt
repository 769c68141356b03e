// The part of a text that a token was read from, fit for one line.
use std::fmt;

// Where the next token begins: white space and comments are passed over.
pub fn first_byte(text: &[u8], from: usize) -> usize {
    let mut comment = false;
    for (at, byte) in text.iter().enumerate().skip(from) {
        match byte {
            10 | 12 | 13 => comment = false,
            0 | 9 | 32 => {}
            b'%' => comment = true,
            _ if comment => {}
            _ => return at,
        }
    }
    text.len()
}

// Bytes of a text as they are printed: one that cannot be shows as a point.
#[derive(Clone, Copy)]
pub struct Excerpt<'t>(pub &'t [u8]);

// So many bytes of an excerpt go out by one write.
const PART: usize = 64;

impl fmt::Display for Excerpt<'_> {
    fn fmt<W: fmt::Write>(&self, f: &mut fmt::Formatter<W>) -> fmt::Result {
        for part in self.0.chunks(PART) {
            let mut shown = [b'.'; PART];
            for (place, byte) in shown.iter_mut().zip(part) {
                if (32..=126).contains(byte) {
                    *place = *byte;
                }
            }
            let shown = shown.get(..part.len()).unwrap_or(&[]);
            f.write_str(str::from_utf8(shown).unwrap_or(""))?;
        }
        Ok(())
    }
}
