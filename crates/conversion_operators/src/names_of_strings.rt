// cvn: a string becomes a name.
ghost use Rattle.std.specs.Prelude.{◌≡◌};
ghost use Rattle.conversion_operators.specs.Conversions.{name_made};

use keepers::keeper::Keeper;
use objects::fault::Fault;
use objects::object::{Object, Value};
use operators::machine::Machine;
use operators::operand::{Operand, StringSpan};
use operators::reading::operand;

pub fn cvn<K: Keeper>(machine: &mut Machine<K>) -> Result<(), Fault>
    ensures answer { result ≡ (name_made machine.old).answer }
    ensures state { machine.new ≡ (name_made machine.old).state }
{
    let object = operand(&machine.operands, 0)?;
    let StringSpan(string) = StringSpan::from_object(object)?;
    let value = Value::Name(machine.string_name(string)?);
    machine.operands.replace(1, Object { value, ..object });
    Ok(())
}
