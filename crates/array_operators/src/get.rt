// get.
ghost use Rattle.std.specs.Prelude.{◌≡◌};
ghost use Rattle.array_operators.specs.Elements.{got};

use crate::entries::value_of;
use crate::indices::place_at;
use keepers::keeper::Keeper;
use objects::fault::Fault;
use objects::object::{Object, Value};
use operators::machine::Machine;
use operators::reading::{at_least, operand};

pub fn get<K: Keeper>(machine: &mut Machine<K>) -> Result<(), Fault>
    ensures answer { result ≡ (got machine.old).answer }
    ensures state { machine.new ≡ (got machine.old).state }
{
    at_least(&machine.operands, 2)?;
    let container: Object = operand(&machine.operands, 1)?;
    let element = match container.value {
        Value::Array(span) => {
            let place = place_at(&machine.operands, 0, span)?;
            machine.memory.slot(place)
        }
        Value::String(span) => {
            let place = place_at(&machine.operands, 0, span)?;
            Object::from(i32::from(machine.memory.byte(place)))
        }
        Value::Dictionary(dictionary) => {
            let key = machine.key_at(0)?;
            value_of(&machine.memory, dictionary, key)?
        }
        _ => return Err(Fault::TypeCheck),
    };
    machine.operands.replace(2, element);
    Ok(())
}
