// eq ne: whether two objects are the same.
ghost use Rattle.std.specs.Prelude.{◌≡◌};
ghost use Rattle.memory.specs.Memories.{InUse};
ghost use Rattle.objects.specs.Outcomes.{after, heard};
ghost use Rattle.text_operators.specs.Equality.{letters_among, same_among, two_same, same_told, equal_told, unequal_told, Sameness};
ghost use Rattle.text_operators.specs.Texts.{bytes_of_any};

use crate::object_text::object_text;
use crate::same_text::same_text;
use crate::text::Text;
use keepers::keeper::Keeper;
use memory::memory::Memory;
use names::table::NameTable;
use objects::fault::Fault;
use objects::object::{Object, Value};
use operators::machine::Machine;
use operators::reading::two;

// The letters of a name, the bytes of a string: by these they are compared.
fn letters<'a>(names: &'a NameTable, value: Value) -> Option<Text<'a>>
    ensures { (m : InUse) → bytes_of_any result m ≡ letters_among value names.now m }
{
    match value {
        Value::Name(_) | Value::String(_) => Some(object_text(names, value)),
        _ => None,
    }
}

// Names and strings are compared by their bytes, a string with a name too, and other objects by value: an array by its place, not by its elements.
pub fn same<K: Keeper>(names: &NameTable, memory: &Memory<K>, a: Value, b: Value) -> bool
    ensures { result ≡ same_among a b names.now memory.now }
{
    match (letters(names, a), letters(names, b)) {
        (Some(x), Some(y)) => same_text(memory, x, y),
        (None, None) => a == b,
        _ => false,
    }
}

// Whether the top two operands are the same.
fn two_same<K: Keeper>(machine: &Machine<K>) -> Result<bool, Fault>
    ensures { result ≡ two_same machine.now }
{
    let (a, b): (Object, Object) = two(&machine.operands)?;
    Ok(same(&machine.names, &machine.memory, a.value, b.value))
}

// Two operands give way to a boolean: whether they are the same, or with false wanted, whether they are not.
fn tell_same<K: Keeper>(machine: &mut Machine<K>, wanted: bool) -> Result<(), Fault>
    ensures answer { result ≡ heard (same_told wanted machine.old) }
    ensures state { machine.new ≡ after (same_told wanted machine.old) machine.old }
{
    let same = two_same(machine)?;
    machine.operands.replace(2, Object::from(same == wanted));
    Ok(())
}

pub fn eq<K: Keeper>(machine: &mut Machine<K>) -> Result<(), Fault>
    ensures answer { result ≡ heard (equal_told machine.old) }
    ensures state { machine.new ≡ after (equal_told machine.old) machine.old }
    ensures law { Sameness machine.old }
{
    tell_same(machine, true)
}

pub fn ne<K: Keeper>(machine: &mut Machine<K>) -> Result<(), Fault>
    ensures answer { result ≡ heard (unequal_told machine.old) }
    ensures state { machine.new ≡ after (unequal_told machine.old) machine.old }
{
    tell_same(machine, false)
}
