// How operands are stored in slots.
ghost use Rattle.std.specs.Prelude.{◌≡◌};
ghost use Rattle.array_operators.specs.Stores.{stored};

use keepers::keeper::Keeper;
use memory::memory::Memory;
use objects::object::{Object, Span};
use stacks::operands::Operands;

// Stores the operands below so many in the slots of a span, the lowest of them first.
pub fn store_operands<K: Keeper>(
    memory: &mut Memory<K>,
    operands: &Operands,
    above: u16,
    span: Span,
)
    ensures { memory.new ≡ stored above span.start span.len operands.now.objects memory.old }
{
    let above = usize::from(above);
    let start = usize::from(span.start);
    let len = usize::from(span.len);
    for (at, from_top) in (start..start + len).zip((above..above + len).rev()) {
        let object = operands.peek(from_top).unwrap_or(Object::BLANK);
        memory.set_slot(at, object);
    }
}
