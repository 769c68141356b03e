// array string.
ghost use Rattle.std.specs.Prelude.{◌≡◌, ℕ};
ghost use Rattle.objects.specs.Outcomes.{after, heard};
ghost use Rattle.objects.specs.declared.object.Object.{Object};
ghost use Rattle.operators.specs.Arrays.{made, array_made, string_made};
ghost use Rattle.operators.specs.Steps.{ComputesObject, Follows};

use crate::machine::Machine;
use crate::reading::natural_at;
use keepers::keeper::Keeper;
use memory::cell::Cell;
use objects::fault::Fault;
use objects::object::{Object, Span, Value};

// As many cells of memory as the top operand says: it gives way to what a step makes of their place.
fn make<C: Cell, K: Keeper, F: FnOnce(Span) -> Value>(
    machine: &mut Machine<K>,
    step: F,
) -> Result<(), Fault>
    requires { F.IsAlwaysCallable step }
    ensures { (f : ℕ → ℕ → Object) → ComputesObject (F.post step) f → Follows (made C.Cell.part f machine.old) machine.old result machine.new }
{
    let n = natural_at(&machine.operands, 0)?;
    let len = u16::try_from(n).map_err(|_| Fault::VmError)?;
    let start = machine.memory.take::<C>(n)?;
    machine
        .operands
        .replace(1, Object::literal(step(Span { start, len })));
    Ok(())
}

pub fn array<K: Keeper>(machine: &mut Machine<K>) -> Result<(), Fault>
    ensures answer { result ≡ heard (array_made machine.old) }
    ensures state { machine.new ≡ after (array_made machine.old) machine.old }
{
    make::<Object, _, _>(machine, |span| Value::Array(span))
}

pub fn string<K: Keeper>(machine: &mut Machine<K>) -> Result<(), Fault>
    ensures answer { result ≡ heard (string_made machine.old) }
    ensures state { machine.new ≡ after (string_made machine.old) machine.old }
{
    make::<u8, _, _>(machine, |span| Value::String(span))
}
