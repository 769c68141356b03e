// add sub mul idiv mod neg abs.
ghost use Rattle.std.specs.Prelude.{◌≡◌, ℤ, Result, ok_or};
ghost use Rattle.objects.specs.Outcomes.{after, heard};
ghost use Rattle.objects.specs.declared.fault.Fault.{Fault};
ghost use Rattle.objects.specs.declared.fault.Fault.TheVariants.{UndefinedResult};
ghost use Rattle.operators.specs.Arithmetic.{binary, unary, sum, difference, product, quotient, remainder, opposite, magnitude};
ghost use Rattle.operators.specs.Steps.{ComputesOne, ComputesTwo, Follows};

use crate::reading::{operand, two};
use objects::fault::Fault;
use objects::object::Object;
use stacks::operands::Operands;

// Two integers give way to what a step makes of them; undefinedresult where it makes nothing.
fn binary<F: FnOnce(i32, i32) -> Option<i32>>(operands: &mut Operands, step: F) -> Result<(), Fault>
    requires { F.IsAlwaysCallable step }
    ensures { (f : ℤ → ℤ → Result ℤ Fault) → ComputesTwo (F.post step) f → Follows (binary f operands.old) operands.old result operands.new }
{
    let (a, b) = two(operands)?;
    let z = step(a, b).ok_or(Fault::UndefinedResult)?;
    operands.replace(2, Object::from(z));
    Ok(())
}

// One integer gives way to what a step makes of it; undefinedresult where it makes nothing.
fn unary<F: FnOnce(i32) -> Option<i32>>(operands: &mut Operands, step: F) -> Result<(), Fault>
    requires { F.IsAlwaysCallable step }
    ensures { (f : ℤ → Result ℤ Fault) → ComputesOne (F.post step) f → Follows (unary f operands.old) operands.old result operands.new }
{
    let a = operand(operands, 0)?;
    let z = step(a).ok_or(Fault::UndefinedResult)?;
    operands.replace(1, Object::from(z));
    Ok(())
}

// The quotient truncated toward zero; none for a divisor of 0 and for the lowest integer by -1.
fn quotient(a: i32, b: i32) -> Option<i32>
    ensures { ok_or result UndefinedResult ≡ quotient a b }
{
    a.checked_div(b)
}

// The remainder with the sign of the dividend; none for a divisor of 0.
fn remainder(a: i32, b: i32) -> Option<i32>
    ensures { ok_or result UndefinedResult ≡ remainder a b }
{
    match b {
        0 => None,
        -1 => Some(0),
        _ => Some(a % b),
    }
}

pub fn add(operands: &mut Operands) -> Result<(), Fault>
    ensures answer { result ≡ heard (binary sum operands.old) }
    ensures state { operands.new ≡ after (binary sum operands.old) operands.old }
{
    binary(operands, |a, b| a.checked_add(b))
}

pub fn sub(operands: &mut Operands) -> Result<(), Fault>
    ensures answer { result ≡ heard (binary difference operands.old) }
    ensures state { operands.new ≡ after (binary difference operands.old) operands.old }
{
    binary(operands, |a, b| a.checked_sub(b))
}

pub fn mul(operands: &mut Operands) -> Result<(), Fault>
    ensures answer { result ≡ heard (binary product operands.old) }
    ensures state { operands.new ≡ after (binary product operands.old) operands.old }
{
    binary(operands, |a, b| a.checked_mul(b))
}

pub fn idiv(operands: &mut Operands) -> Result<(), Fault>
    ensures answer { result ≡ heard (binary quotient operands.old) }
    ensures state { operands.new ≡ after (binary quotient operands.old) operands.old }
{
    binary(operands, quotient)
}

pub fn modulo(operands: &mut Operands) -> Result<(), Fault>
    ensures answer { result ≡ heard (binary remainder operands.old) }
    ensures state { operands.new ≡ after (binary remainder operands.old) operands.old }
{
    binary(operands, remainder)
}

pub fn neg(operands: &mut Operands) -> Result<(), Fault>
    ensures answer { result ≡ heard (unary opposite operands.old) }
    ensures state { operands.new ≡ after (unary opposite operands.old) operands.old }
{
    unary(operands, |a| a.checked_neg())
}

pub fn abs(operands: &mut Operands) -> Result<(), Fault>
    ensures answer { result ≡ heard (unary magnitude operands.old) }
    ensures state { operands.new ≡ after (unary magnitude operands.old) operands.old }
{
    unary(operands, |a| a.checked_abs())
}
