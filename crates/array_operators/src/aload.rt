// aload.
ghost use Rattle.std.specs.Prelude.{◌≡◌};
ghost use Rattle.objects.specs.Outcomes.{after, heard};
ghost use Rattle.array_operators.specs.Loads.{topped, loaded, array_loaded};

use keepers::keeper::Keeper;
use memory::memory::Memory;
use objects::fault::Fault;
use objects::object::{Object, Span};
use operators::machine::Machine;
use operators::operand::{Array, Operand};
use operators::reading::operand;
use stacks::operands::Operands;

// One more operand, where there is room.
fn top(operands: &mut Operands, object: Object)
    ensures { operands.new ≡ topped object operands.old }
{
    let _ = operands.push(object);
}

// Pushes the elements of an array, the first of them first.
fn load<K: Keeper>(operands: &mut Operands, memory: &Memory<K>, span: Span)
    ensures { operands.new ≡ loaded span.start span.len memory.now operands.old }
{
    let start = usize::from(span.start);
    for at in start..start + usize::from(span.len) {
        top(operands, memory.slot(at));
    }
}

pub fn aload<K: Keeper>(machine: &mut Machine<K>) -> Result<(), Fault>
    ensures answer { result ≡ heard (array_loaded machine.old) }
    ensures state { machine.new ≡ after (array_loaded machine.old) machine.old }
{
    let object = operand(&machine.operands, 0)?;
    let Array(span) = Array::from_object(object)?;
    if usize::from(span.len) > machine.operands.room() {
        return Err(Fault::StackOverflow);
    }
    machine.operands.discard(1);
    load(&mut machine.operands, &machine.memory, span);
    top(&mut machine.operands, object);
    Ok(())
}
