// What `==` answers, at every type of this crate that has it: whether the two values are the same.
ghost use Rattle.std.specs.Prelude.{◌≡◌, ◌==◌, ℤ, Result, Decides};
ghost use Rattle.objects.specs.Faults.{fault_number};
ghost use Rattle.objects.specs.Operators.{number};
ghost use Rattle.objects.specs.declared.fault.Fault.{Fault};
ghost use Rattle.objects.specs.declared.integer.IntegerError.{IntegerError};
ghost use Rattle.objects.specs.declared.object.Header.{Header};
ghost use Rattle.objects.specs.declared.object.Object.{Object};
ghost use Rattle.objects.specs.declared.object.Span.{Span};
ghost use Rattle.objects.specs.declared.object.Value.{Value};
ghost use Rattle.objects.specs.declared.operator.Operator.{Operator};

use crate::fault::Fault;
use crate::integer::IntegerError;
use crate::object::{Header, Object, Span, Value};
use crate::operator::Operator;

// The laws need no call to be said, so they stand on the contract of a function that does nothing.
pub fn equality_decides()
    ensures faults { (a b : Fault) → Decides (⟦<Fault as PartialEq>⟧.eq a b) (a ≡ b) }
    ensures fault_numbers { (a b : Fault) → ⟦<Fault as PartialEq>⟧.eq a b ≡ (fault_number a == fault_number b) }
    ensures operators { (a b : Operator) → Decides (⟦<Operator as PartialEq>⟧.eq a b) (a ≡ b) }
    ensures operator_numbers { (a b : Operator) → ⟦<Operator as PartialEq>⟧.eq a b ≡ (number a == number b) }
    ensures spans { (a b : Span) → Decides (⟦<Span as PartialEq>⟧.eq a b) (a ≡ b) }
    ensures headers { (a b : Header) → Decides (⟦<Header as PartialEq>⟧.eq a b) (a ≡ b) }
    ensures values { (a b : Value) → Decides (⟦<Value as PartialEq>⟧.eq a b) (a ≡ b) }
    ensures objects { (a b : Object) → Decides (⟦<Object as PartialEq>⟧.eq a b) (a ≡ b) }
    ensures readings { (a b : Result ℤ IntegerError) → Decides (⟦<Result<i32, IntegerError> as PartialEq>⟧.eq a b) (a ≡ b) }
    ensures errors { (a b : IntegerError) → Decides (⟦<IntegerError as PartialEq>⟧.eq a b) (a ≡ b) }
{}
