// How operators read their operands.
ghost use Rattle.std.specs.Prelude.{◌≡◌};
ghost use Rattle.operators.specs.Operands.{at_least, read_at, read_two, natural, natural_at};

use crate::operand::Operand;
use objects::fault::Fault;
use stacks::operands::Operands;

// Refused with fewer operands than so many.
pub fn at_least(operands: &Operands, n: usize) -> Result<(), Fault>
    ensures { result ≡ at_least n operands.now }
{
    if operands.depth() < n {
        return Err(Fault::StackUnderflow);
    }
    Ok(())
}

// The n-th operand from the top, read as a type.
pub fn operand<T: Operand>(operands: &Operands, n: usize) -> Result<T, Fault>
    ensures { result ≡ read_at T.from_object n operands.now }
{
    T::from_object(operands.peek(n).ok_or(Fault::StackUnderflow)?)
}

// The top two operands, read as a type: the lower one first.
pub fn two<T: Operand>(operands: &Operands) -> Result<(T, T), Fault>
    ensures { result ≡ read_two T.from_object operands.now }
{
    at_least(operands, 2)?;
    Ok((operand(operands, 1)?, operand(operands, 0)?))
}

// A count or an index: not negative.
pub fn natural(number: i32) -> Result<u32, Fault>
    ensures { result ≡ natural number }
{
    u32::try_from(number).map_err(|_| Fault::RangeCheck)
}

// The n-th operand from the top, as a count or an index.
pub fn natural_at(operands: &Operands, n: usize) -> Result<u32, Fault>
    ensures { result ≡ natural_at n operands.now }
{
    natural(operand(operands, n)?)
}
