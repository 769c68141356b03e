// dict maxlength.
ghost use Rattle.std.specs.Prelude.{◌≡◌};
ghost use Rattle.objects.specs.Outcomes.{after, heard};
ghost use Rattle.dictionary_operators.specs.Sizes.{size_at, made_dictionary, capacity_told};

use keepers::keeper::Keeper;
use objects::fault::Fault;
use objects::object::{Object, Value};
use operators::machine::Machine;
use operators::operand::Dictionary;
use operators::reading::{natural_at, operand};
use stacks::operands::Operands;

const MOST_ENTRIES: u32 = 1000;

// The n-th operand from the top, as the number of entries that a dictionary is to hold.
fn size_at(operands: &Operands, n: usize) -> Result<u16, Fault>
    ensures { result ≡ size_at n operands.now }
{
    let size = natural_at(operands, n)?;
    if size > MOST_ENTRIES {
        return Err(Fault::LimitCheck);
    }
    Ok(size as u16)
}

pub fn dict<K: Keeper>(machine: &mut Machine<K>) -> Result<(), Fault>
    ensures answer { result ≡ heard (made_dictionary machine.old) }
    ensures state { machine.new ≡ after (made_dictionary machine.old) machine.old }
{
    let size = size_at(&machine.operands, 0)?;
    let start = machine.memory.make_dictionary(size)?;
    machine
        .operands
        .replace(1, Object::literal(Value::Dictionary(start)));
    Ok(())
}

pub fn maxlength<K: Keeper>(machine: &mut Machine<K>) -> Result<(), Fault>
    ensures answer { result ≡ heard (capacity_told machine.old) }
    ensures state { machine.new ≡ after (capacity_told machine.old) machine.old }
{
    let Dictionary(dictionary) = operand(&machine.operands, 0)?;
    let header = machine.memory.header(dictionary);
    machine
        .operands
        .replace(1, Object::from(i32::from(header.capacity)));
    Ok(())
}
