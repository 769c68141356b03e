// How the operators on arrays and strings read their operands.
ghost use Rattle.std.specs.Prelude.{◌≡◌};
ghost use Rattle.array_operators.specs.Indices.{place_in, place_at, byte_value};

use objects::fault::Fault;
use objects::object::Span;
use operators::reading::{natural, operand};
use stacks::operands::Operands;

// Where the element with an index lies.
pub fn place_in(span: Span, index: i32) -> Result<usize, Fault>
    ensures { result ≡ place_in span index }
{
    let index = natural(index)?;
    if index >= u32::from(span.len) {
        return Err(Fault::RangeCheck);
    }
    Ok(usize::from(span.start) + index as usize)
}

// Where the element lies of which the n-th operand is the index.
pub fn place_at(operands: &Operands, n: usize, span: Span) -> Result<usize, Fault>
    ensures { result ≡ place_at n span operands.now }
{
    place_in(span, operand(operands, n)?)
}

// A number that is a byte.
pub fn byte_value(number: i32) -> Result<u8, Fault>
    ensures { result ≡ byte_value number }
{
    u8::try_from(natural(number)?).map_err(|_| Fault::RangeCheck)
}
