// length.
ghost use Rattle.std.specs.Prelude.{◌≡◌};
ghost use Rattle.objects.specs.Outcomes.{after, heard};
ghost use Rattle.array_operators.specs.Lengths.{name_length, length_of, measured};

use keepers::keeper::Keeper;
use names::table::NameTable;
use objects::fault::Fault;
use objects::object::{Object, Value};
use operators::machine::Machine;
use operators::reading::operand;

// How many bytes a name has.
fn name_length(names: &NameTable, number: u16) -> u16
    ensures { result ≡ name_length number names.now }
{
    names.text_of(number).unwrap_or(&[]).len() as u16
}

// Elements of an array, bytes of a string or a name, entries of a dictionary.
fn length_of<K: Keeper>(machine: &Machine<K>, value: Value) -> Result<u16, Fault>
    ensures { result ≡ length_of machine.now value }
{
    match value {
        Value::Name(number) => Ok(name_length(&machine.names, number)),
        Value::Array(span) => Ok(span.len),
        Value::String(span) => Ok(span.len),
        Value::Dictionary(start) => Ok(machine.memory.header(start).count),
        _ => Err(Fault::TypeCheck),
    }
}

pub fn length<K: Keeper>(machine: &mut Machine<K>) -> Result<(), Fault>
    ensures answer { result ≡ heard (measured machine.old) }
    ensures state { machine.new ≡ after (measured machine.old) machine.old }
{
    let object: Object = operand(&machine.operands, 0)?;
    let len = length_of(machine, object.value)?;
    machine.operands.replace(1, Object::from(i32::from(len)));
    Ok(())
}
