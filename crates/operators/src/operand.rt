// What operands are read as: an object of any type, an integer, a boolean, an array, a string, a procedure, a dictionary.
ghost use Rattle.std.specs.Prelude.{◌≡◌, ℕ, Ok, Result};
ghost use Rattle.objects.specs.declared.fault.Fault.{Fault};
ghost use Rattle.objects.specs.declared.object.Object.{Object};
ghost use Rattle.objects.specs.declared.object.Span.{Span};
ghost use Rattle.operators.specs.Operands.{as_integer, as_boolean, as_array, as_string, as_procedure, as_dictionary};

use objects::fault::Fault;
use objects::object::{Object, Span, Value};
use std::marker::Model;

// A type that operands are read as.
// Kept: a trait beside std's TryFrom, which says of a conversion which results it may give: here a contract names the one result, as code over any such type needs.
pub trait Operand: Copy {
    ghost from_object: { Object → Result Self Fault };

    // The object as one of this type, or typecheck.
    fn from_object(object: Object) -> Result<Self, Fault>
        ensures { result ≡ from_object object };
}

impl Operand for Object {
    ghost from_object = { Ok };

    fn from_object(object: Object) -> Result<Object, Fault> {
        Ok(object)
    }
}

impl Operand for i32 {
    ghost from_object = { as_integer };

    fn from_object(object: Object) -> Result<i32, Fault> {
        match object.value {
            Value::Integer(number) => Ok(number),
            _ => Err(Fault::TypeCheck),
        }
    }
}

impl Operand for bool {
    ghost from_object = { as_boolean };

    fn from_object(object: Object) -> Result<bool, Fault> {
        match object.value {
            Value::Boolean(flag) => Ok(flag),
            _ => Err(Fault::TypeCheck),
        }
    }
}

// Where the slots of an array lie, whatever its flag.
#[derive(Clone, Copy)]
pub struct Array(pub Span);

impl Model for Array {
    ghost Value = { Span };

    ghost view = { λ a. a.0 };

    ghost inverse = { λ s. record { 0 = s } };
}

impl Operand for Array {
    ghost from_object = { as_array };

    fn from_object(object: Object) -> Result<Array, Fault> {
        match object.value {
            Value::Array(span) => Ok(Array(span)),
            _ => Err(Fault::TypeCheck),
        }
    }
}

// Where the bytes of a string lie, whatever its flag.
#[derive(Clone, Copy)]
pub struct StringSpan(pub Span);

impl Model for StringSpan {
    ghost Value = { Span };

    ghost view = { λ a. a.0 };

    ghost inverse = { λ s. record { 0 = s } };
}

impl Operand for StringSpan {
    ghost from_object = { as_string };

    fn from_object(object: Object) -> Result<StringSpan, Fault> {
        match object.value {
            Value::String(span) => Ok(StringSpan(span)),
            _ => Err(Fault::TypeCheck),
        }
    }
}

// Where the slots of an executable array lie.
#[derive(Clone, Copy)]
pub struct Procedure(pub Span);

impl Model for Procedure {
    ghost Value = { Span };

    ghost view = { λ p. p.0 };

    ghost inverse = { λ s. record { 0 = s } };
}

impl Operand for Procedure {
    ghost from_object = { as_procedure };

    fn from_object(object: Object) -> Result<Procedure, Fault> {
        match (object.executable, object.value) {
            (true, Value::Array(span)) => Ok(Procedure(span)),
            _ => Err(Fault::TypeCheck),
        }
    }
}

// Where a dictionary starts.
#[derive(Clone, Copy)]
pub struct Dictionary(pub u16);

impl Model for Dictionary {
    ghost Value = { ℕ };

    ghost view = { λ d. d.0 };

    ghost inverse = { λ n. record { 0 = n } };
}

impl Operand for Dictionary {
    ghost from_object = { as_dictionary };

    fn from_object(object: Object) -> Result<Dictionary, Fault> {
        match object.value {
            Value::Dictionary(start) => Ok(Dictionary(start)),
            _ => Err(Fault::TypeCheck),
        }
    }
}
