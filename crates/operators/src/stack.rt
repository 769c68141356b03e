// pop exch dup copy index roll clear count mark cleartomark counttomark.
ghost use Rattle.std.specs.Prelude.{◌≡◌, pos, ◌<ℤ◌};
ghost use Rattle.objects.specs.Outcomes.{after, heard};
ghost use Rattle.operators.specs.Stack.{popped, exchanged, duplicated, copied, indexed, rolled_by, turns, counted, mark, cleared_to_mark, counted_to_mark};
ghost use Rattle.stacks.specs.Stacked.{cleared, pushed};

use crate::reading::{at_least, natural, natural_at, two};
use objects::fault::Fault;
use objects::object::{Object, Value};
use stacks::operands::Operands;

pub fn pop(operands: &mut Operands) -> Result<(), Fault>
    ensures answer { result ≡ heard (popped operands.old) }
    ensures state { operands.new ≡ after (popped operands.old) operands.old }
{
    at_least(operands, 1)?;
    operands.discard(1);
    Ok(())
}

pub fn exch(operands: &mut Operands) -> Result<(), Fault>
    ensures answer { result ≡ heard (exchanged operands.old) }
    ensures state { operands.new ≡ after (exchanged operands.old) operands.old }
{
    at_least(operands, 2)?;
    operands.roll(2, 1);
    Ok(())
}

pub fn dup(operands: &mut Operands) -> Result<(), Fault>
    ensures answer { result ≡ heard (duplicated operands.old) }
    ensures state { operands.new ≡ after (duplicated operands.old) operands.old }
{
    at_least(operands, 1)?;
    operands.copy_top(1)
}

pub fn copy(operands: &mut Operands) -> Result<(), Fault>
    ensures answer { result ≡ heard (copied operands.old) }
    ensures state { operands.new ≡ after (copied operands.old) operands.old }
{
    let n = natural_at(operands, 0)? as usize;
    if n + 1 > operands.depth() {
        return Err(Fault::RangeCheck);
    }
    if n > operands.room() + 1 {
        return Err(Fault::StackOverflow);
    }
    operands.discard(1);
    operands.copy_top(n)
}

pub fn index(operands: &mut Operands) -> Result<(), Fault>
    ensures answer { result ≡ heard (indexed operands.old) }
    ensures state { operands.new ≡ after (indexed operands.old) operands.old }
{
    let n = natural_at(operands, 0)? as usize;
    let object = operands.peek(n + 1).ok_or(Fault::RangeCheck)?;
    operands.replace(1, object);
    Ok(())
}

// How far j turns a group of n, of which there is at least one: below n.
fn turns(n: i32, j: i32) -> usize
    requires { pos 0 <ℤ n }
    ensures { result ≡ turns n j }
{
    j.rem_euclid(n) as usize
}

pub fn roll(operands: &mut Operands) -> Result<(), Fault>
    ensures answer { result ≡ heard (rolled_by operands.old) }
    ensures state { operands.new ≡ after (rolled_by operands.old) operands.old }
{
    let (n, j) = two(operands)?;
    let group = natural(n)? as usize;
    if group + 2 > operands.depth() {
        return Err(Fault::RangeCheck);
    }
    operands.discard(2);
    if n > 0 {
        operands.roll(group, turns(n, j));
    }
    Ok(())
}

pub fn count(operands: &mut Operands) -> Result<(), Fault>
    ensures answer { result ≡ heard (counted operands.old) }
    ensures state { operands.new ≡ after (counted operands.old) operands.old }
{
    let depth = operands.depth();
    operands.push(Object::from(depth as i32))
}

pub fn clear(operands: &mut Operands)
    ensures { operands.new ≡ cleared operands.old }
{
    operands.clear();
}

pub fn mark(operands: &mut Operands) -> Result<(), Fault>
    ensures answer { result ≡ heard (pushed mark operands.old) }
    ensures state { operands.new ≡ after (pushed mark operands.old) operands.old }
{
    operands.push(Object::literal(Value::Mark))
}

pub fn cleartomark(operands: &mut Operands) -> Result<(), Fault>
    ensures answer { result ≡ heard (cleared_to_mark operands.old) }
    ensures state { operands.new ≡ after (cleared_to_mark operands.old) operands.old }
{
    let n = operands.count_to_mark().ok_or(Fault::UnmatchedMark)?;
    operands.discard(n + 1);
    Ok(())
}

pub fn counttomark(operands: &mut Operands) -> Result<(), Fault>
    ensures answer { result ≡ heard (counted_to_mark operands.old) }
    ensures state { operands.new ≡ after (counted_to_mark operands.old) operands.old }
{
    let n = operands.count_to_mark().ok_or(Fault::UnmatchedMark)?;
    operands.push(Object::from(n as i32))
}
