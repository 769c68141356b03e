// The object record: what a slot, an operand or a dictionary entry holds.
ghost use Rattle.std.specs.Prelude.{◌≡◌};
ghost use Rattle.objects.specs.Objects as of;

use crate::operator::Operator;

// The place of an array's slots, or of the bytes of a string or a name.
#[derive(Clone, Copy, Default, PartialEq, Eq, Debug)]
pub struct Span {
    pub start: u16,
    pub len: u16,
}

// The first slot of a dictionary: how many entries it has, and for how many it has room.
#[derive(Clone, Copy, Default, PartialEq, Eq, Debug)]
pub struct Header {
    pub count: u16,
    pub capacity: u16,
}

// Null comes first, so that the blank object is also what a read past a list's end gives in a specification.
#[derive(Clone, Copy, Default, PartialEq, Eq, Debug)]
pub enum Value {
    #[default]
    Null,
    Integer(i32),
    Boolean(bool),
    Mark,
    Name(u16),
    Operator(Operator),
    Array(Span),
    String(Span),
    Dictionary(u16),
    Save(u16),
    // only in slots: no stack holds a header
    Header(Header),
}

#[derive(Clone, Copy, Default, PartialEq, Eq, Debug)]
pub struct Object {
    pub value: Value,
    pub executable: bool,
}

impl Object {
    // What a slot holds that is taken and not yet written.
    pub const BLANK: Object = Object {
        value: Value::Null,
        executable: false,
    };

    pub fn literal(value: Value) -> Object
        ensures { result ≡ of.literal value }
    {
        Object {
            value,
            executable: false,
        }
    }
}

impl From<i32> for Object {
    ghost from_gives = { λ z o. o ≡ of.integer z };

    fn from(value: i32) -> Object {
        Object::literal(Value::Integer(value))
    }
}

impl From<bool> for Object {
    ghost from_gives = { λ b o. o ≡ of.truth b };

    fn from(value: bool) -> Object {
        Object::literal(Value::Boolean(value))
    }
}
