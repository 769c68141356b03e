// The decimal text of an integer: at most a sign and ten digits, without a leading zero.
ghost use Rattle.std.specs.Prelude.{◌≡◌, ◌≤◌, length, Ok};
ghost use Rattle.objects.specs.Decimals.{written, integer_text, integer_read};

use arrayvec::ArrayString;
use itoa::Buffer;

#[derive(Clone, Copy)]
pub struct DecimalText {
    text: ArrayString<11>,
}

impl DecimalText {
    // Read as an integer, the text gives the integer back.
    pub fn of(value: i32) -> DecimalText
        ensures text { written result ≡ integer_text value }
        ensures back { integer_read (written result) ≡ Ok value }
    {
        let mut text = ArrayString::new();
        text.push_str(Buffer::new().format(value));
        DecimalText { text }
    }

    // At most a sign and ten digits.
    pub fn bytes(&self) -> &[u8]
        ensures text { result.now ≡ written self.now }
        ensures short { length result.now ≤ 11 }
    {
        self.text.as_bytes()
    }
}
