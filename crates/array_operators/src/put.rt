// put.
ghost use Rattle.std.specs.Prelude.{◌≡◌};
ghost use Rattle.array_operators.specs.Elements.{was_put};

use crate::indices::{byte_value, place_at, place_in};
use keepers::keeper::Keeper;
use objects::fault::Fault;
use objects::object::{Object, Value};
use operators::machine::Machine;
use operators::reading::{at_least, operand};

pub fn put<K: Keeper>(machine: &mut Machine<K>) -> Result<(), Fault>
    ensures answer { result ≡ (was_put machine.old).answer }
    ensures state { machine.new ≡ (was_put machine.old).state }
{
    at_least(&machine.operands, 3)?;
    let container: Object = operand(&machine.operands, 2)?;
    match container.value {
        Value::Array(span) => {
            let place = place_at(&machine.operands, 1, span)?;
            let element = operand(&machine.operands, 0)?;
            machine.memory.set_slot(place, element);
        }
        Value::String(span) => {
            let index = operand(&machine.operands, 1)?;
            let number = operand(&machine.operands, 0)?;
            let place = place_in(span, index)?;
            let byte = byte_value(number)?;
            machine.memory.set_byte(place, byte);
        }
        Value::Dictionary(dictionary) => {
            let value = operand(&machine.operands, 0)?;
            let key = machine.key_at(1)?;
            machine.memory.define(dictionary, key, value)?;
        }
        _ => return Err(Fault::TypeCheck),
    }
    machine.operands.discard(3);
    Ok(())
}
