// Operands as keys, for callers that hold names, memory and operands apart: a string becomes a name, and so joins the names.
ghost use Rattle.std.specs.Prelude.{◌≡◌};
ghost use Rattle.operators.specs.Keys.{key_with, names_with_object, key_among, names_with_key};
ghost use Rattle.operators.specs.Texts.{number_of_string, names_with_string};

use crate::reading::operand;
use crate::text::{LONGEST_NAME, gathered};
use keepers::keeper::Keeper;
use memory::key::Key;
use memory::memory::Memory;
use names::table::NameTable;
use objects::fault::Fault;
use objects::object::{Object, Span, Value};
use stacks::operands::Operands;

// The number of the name with the bytes of a string, which joins the names if it is new.
pub(crate) fn string_name<K: Keeper>(
    names: &mut NameTable,
    memory: &Memory<K>,
    string: Span,
) -> Result<u16, Fault>
    ensures answer { result ≡ number_of_string string memory.now names.old }
    ensures state { names.new ≡ names_with_string string memory.now names.old }
{
    let len = usize::from(string.len);
    if len > LONGEST_NAME {
        return Err(Fault::LimitCheck);
    }
    let buffer = gathered(memory, string);
    names.join(&buffer[..len])
}

// The key that an object is.
pub(crate) fn key_of<K: Keeper>(
    names: &mut NameTable,
    memory: &Memory<K>,
    object: Object,
) -> Result<Key, Fault>
    ensures answer { result ≡ key_with object memory.now names.old }
    ensures state { names.new ≡ names_with_object object memory.now names.old }
{
    match object.value {
        Value::String(string) => Ok(Key::Name(string_name(names, memory, string)?)),
        _ => Key::try_from(object.value),
    }
}

// The n-th operand from the top, as a key.
pub fn key_at<K: Keeper>(
    names: &mut NameTable,
    memory: &Memory<K>,
    operands: &Operands,
    n: usize,
) -> Result<Key, Fault>
    ensures answer { result ≡ key_among n operands.now memory.now names.old }
    ensures state { names.new ≡ names_with_key n operands.now memory.now names.old }
{
    let object = operand(operands, n)?;
    key_of(names, memory, object)
}
