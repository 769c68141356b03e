// astore.
ghost use Rattle.std.specs.Prelude.{◌≡◌};
ghost use Rattle.objects.specs.Outcomes.{after, heard};
ghost use Rattle.array_operators.specs.Loads.{array_filled};

use crate::store::store_operands;
use keepers::keeper::Keeper;
use objects::fault::Fault;
use operators::machine::Machine;
use operators::operand::{Array, Operand};
use operators::reading::{at_least, operand};

pub fn astore<K: Keeper>(machine: &mut Machine<K>) -> Result<(), Fault>
    ensures answer { result ≡ heard (array_filled machine.old) }
    ensures state { machine.new ≡ after (array_filled machine.old) machine.old }
{
    let object = operand(&machine.operands, 0)?;
    let Array(span) = Array::from_object(object)?;
    let count = usize::from(span.len) + 1;
    at_least(&machine.operands, count)?;
    store_operands(&mut machine.memory, &machine.operands, 1, span);
    machine.operands.replace(count, object);
    Ok(())
}
