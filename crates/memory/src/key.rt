// The keys of a dictionary.
ghost use Rattle.std.specs.Prelude.{◌≡◌};
ghost use Rattle.std.specs.Option.{ok_or};
ghost use Rattle.objects.specs.declared.fault.Fault.TheVariants.{TypeCheck};
ghost use Rattle.memory.specs.Keys.{key_of, key_object, holds};

use objects::fault::Fault;
use objects::object::{Object, Value};

// A key is kept literal. The integer 1, true and the name `1` are three keys.
#[derive(Clone, Copy, PartialEq, Eq)]
pub enum Key {
    Name(u16),
    Integer(i32),
    Boolean(bool),
}

// The key that a value is, if its type may be one. (A string becomes a name first.)
impl TryFrom<Value> for Key {
    type Error = Fault;

    ghost try_from_gives = { λ v r. r ≡ ok_or (key_of v) TypeCheck };

    fn try_from(value: Value) -> Result<Key, Fault> {
        match value {
            Value::Name(name) => Ok(Key::Name(name)),
            Value::Integer(number) => Ok(Key::Integer(number)),
            Value::Boolean(flag) => Ok(Key::Boolean(flag)),
            _ => Err(Fault::TypeCheck),
        }
    }
}

// The key as an object: literal.
impl From<Key> for Object {
    ghost from_gives = { λ k o. o ≡ key_object k };

    fn from(key: Key) -> Object {
        Object::literal(match key {
            Key::Name(name) => Value::Name(name),
            Key::Integer(number) => Value::Integer(number),
            Key::Boolean(flag) => Value::Boolean(flag),
        })
    }
}

impl Key {
    // Whether a key slot holds this key.
    // Kept: a match of both and no `==` of what the slot reads as, since every pair that a search passes would cost twice as much.
    pub fn is_in(self, object: Object) -> bool
        ensures { result ≡ holds self object.value }
    {
        match (self, object.value) {
            (Key::Name(key), Value::Name(name)) => key == name,
            (Key::Integer(key), Value::Integer(number)) => key == number,
            (Key::Boolean(key), Value::Boolean(flag)) => key == flag,
            _ => false,
        }
    }
}
