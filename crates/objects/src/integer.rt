// Integers read from text: an optional sign and digits, held to 32 bits.
ghost use Rattle.std.specs.Prelude.{◌≡◌};
ghost use Rattle.objects.specs.Decimals.{number_read, with_sign, integer_read};
ghost use Rattle.objects.specs.Caps.{capped};

#[derive(Clone, Copy, PartialEq, Eq, Debug)]
pub enum IntegerError {
    NotInteger,
    // an integer that 32 bits do not hold
    OutOfRange,
}

// What the bytes say when they are read as an integer. Leading zeros count for nothing.
pub fn read_integer(text: &[u8]) -> Result<i32, IntegerError>
    ensures { result ≡ integer_read text.now }
{
    match text {
        [b'-', digits @ ..] => signed(true, digits),
        [b'+', digits @ ..] => signed(false, digits),
        _ => signed(false, text),
    }
}

// The integer that digits write, below zero or not.
fn signed(negative: bool, digits: &[u8]) -> Result<i32, IntegerError>
    ensures { result ≡ with_sign negative (number_read digits.now) }
{
    let number = i64::from(number(digits).ok_or(IntegerError::NotInteger)?);
    i32::try_from(if negative { -number } else { number }).or(Err(IntegerError::OutOfRange))
}

// The number that digits write, which stops at the largest of 32 bits. None if there is no digit or another byte.
fn number(digits: &[u8]) -> Option<u32>
    ensures { result ≡ capped (number_read digits.now) }
{
    if digits.is_empty() {
        return None;
    }
    let mut total: u32 = 0;
    for digit in digits {
        if !digit.is_ascii_digit() {
            return None;
        }
        total = total
            .saturating_mul(10)
            .saturating_add(u32::from(*digit - b'0'));
    }
    Some(total)
}
