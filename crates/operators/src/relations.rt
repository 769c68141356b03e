// gt ge lt le on integers; and or xor not on booleans; true false null.
ghost use Rattle.std.specs.Prelude.{◌≡◌, Bool, true, false};
ghost use Rattle.keepers.specs.Kept.{blank};
ghost use Rattle.objects.specs.Outcomes.{after, heard};
ghost use Rattle.operators.specs.Relations.{told, compared, above, at_least_as, below, at_most_as, joined, both, either, one_of, turned_round};
ghost use Rattle.operators.specs.Steps.{Computes, Follows};
ghost use Rattle.objects.specs.Objects.{truth};
ghost use Rattle.stacks.specs.Stacked.{pushed};

use crate::operand::Operand;
use crate::reading::{operand, two};
use objects::fault::Fault;
use objects::object::Object;
use stacks::operands::Operands;

// Two operands of one type give way to whether a relation holds of them.
fn tell<T: Operand, F: FnOnce(T, T) -> bool>(
    operands: &mut Operands,
    relation: F,
) -> Result<(), Fault>
    requires { F.IsAlwaysCallable relation }
    ensures { (holds : T → T → Bool) → Computes (F.post relation) holds → Follows (told T.from_object holds operands.old) operands.old result operands.new }
{
    let (a, b) = two(operands)?;
    operands.replace(2, Object::from(relation(a, b)));
    Ok(())
}

pub fn gt(operands: &mut Operands) -> Result<(), Fault>
    ensures answer { result ≡ heard (compared above operands.old) }
    ensures state { operands.new ≡ after (compared above operands.old) operands.old }
{
    tell(operands, |a: i32, b: i32| a > b)
}

pub fn ge(operands: &mut Operands) -> Result<(), Fault>
    ensures answer { result ≡ heard (compared at_least_as operands.old) }
    ensures state { operands.new ≡ after (compared at_least_as operands.old) operands.old }
{
    tell(operands, |a: i32, b: i32| a >= b)
}

pub fn lt(operands: &mut Operands) -> Result<(), Fault>
    ensures answer { result ≡ heard (compared below operands.old) }
    ensures state { operands.new ≡ after (compared below operands.old) operands.old }
{
    tell(operands, |a: i32, b: i32| a < b)
}

pub fn le(operands: &mut Operands) -> Result<(), Fault>
    ensures answer { result ≡ heard (compared at_most_as operands.old) }
    ensures state { operands.new ≡ after (compared at_most_as operands.old) operands.old }
{
    tell(operands, |a: i32, b: i32| a <= b)
}

pub fn and(operands: &mut Operands) -> Result<(), Fault>
    ensures answer { result ≡ heard (joined both operands.old) }
    ensures state { operands.new ≡ after (joined both operands.old) operands.old }
{
    tell(operands, |a: bool, b: bool| a & b)
}

pub fn or(operands: &mut Operands) -> Result<(), Fault>
    ensures answer { result ≡ heard (joined either operands.old) }
    ensures state { operands.new ≡ after (joined either operands.old) operands.old }
{
    tell(operands, |a: bool, b: bool| a | b)
}

pub fn xor(operands: &mut Operands) -> Result<(), Fault>
    ensures answer { result ≡ heard (joined one_of operands.old) }
    ensures state { operands.new ≡ after (joined one_of operands.old) operands.old }
{
    tell(operands, |a: bool, b: bool| a ^ b)
}

pub fn not(operands: &mut Operands) -> Result<(), Fault>
    ensures answer { result ≡ heard (turned_round operands.old) }
    ensures state { operands.new ≡ after (turned_round operands.old) operands.old }
{
    let a = operand::<bool>(operands, 0)?;
    operands.replace(1, Object::from(!a));
    Ok(())
}

pub fn push_true(operands: &mut Operands) -> Result<(), Fault>
    ensures answer { result ≡ heard (pushed (truth true) operands.old) }
    ensures state { operands.new ≡ after (pushed (truth true) operands.old) operands.old }
{
    operands.push(Object::from(true))
}

pub fn push_false(operands: &mut Operands) -> Result<(), Fault>
    ensures answer { result ≡ heard (pushed (truth false) operands.old) }
    ensures state { operands.new ≡ after (pushed (truth false) operands.old) operands.old }
{
    operands.push(Object::from(false))
}

pub fn null(operands: &mut Operands) -> Result<(), Fault>
    ensures answer { result ≡ heard (pushed blank operands.old) }
    ensures state { operands.new ≡ after (pushed blank operands.old) operands.old }
{
    operands.push(Object::BLANK)
}
