// ]
ghost use Rattle.std.specs.Prelude.{◌≡◌};
ghost use Rattle.objects.specs.Outcomes.{after, heard};
ghost use Rattle.array_operators.specs.Gathers.{gathered};

use crate::store::store_operands;
use keepers::keeper::Keeper;
use objects::fault::Fault;
use objects::object::{Object, Span, Value};
use operators::machine::Machine;

pub fn close<K: Keeper>(machine: &mut Machine<K>) -> Result<(), Fault>
    ensures answer { result ≡ heard (gathered machine.old) }
    ensures state { machine.new ≡ after (gathered machine.old) machine.old }
{
    let n = machine
        .operands
        .count_to_mark()
        .ok_or(Fault::UnmatchedMark)?;
    let len = u16::try_from(n).map_err(|_| Fault::VmError)?;
    let start = machine.memory.take_slots(u32::from(len))?;
    let span = Span { start, len };
    store_operands(&mut machine.memory, &machine.operands, 0, span);
    machine
        .operands
        .replace(n + 1, Object::literal(Value::Array(span)));
    Ok(())
}
