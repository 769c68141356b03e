// def known: what one dictionary has under a key.
ghost use Rattle.std.specs.Prelude.{◌≡◌};
ghost use Rattle.objects.specs.Outcomes.{after, heard};
ghost use Rattle.operators.specs.Keys.{key_joined};
ghost use Rattle.dictionary_operators.specs.Entries.{defined_in, key_defined, key_known, joined_beside_dictionary};

use crate::open::current;
use keepers::keeper::Keeper;
use memory::key::Key;
use objects::fault::Fault;
use objects::object::Object;
use operators::machine::Machine;
use operators::operand::Dictionary;
use operators::reading::operand;

// Key and value, the top two operands, go into a dictionary.
pub(crate) fn define_in<K: Keeper>(
    machine: &mut Machine<K>,
    dictionary: u16,
    key: Key,
    value: Object,
) -> Result<(), Fault>
    ensures answer { result ≡ heard (defined_in dictionary key value machine.old) }
    ensures state { machine.new ≡ after (defined_in dictionary key value machine.old) machine.old }
{
    machine.memory.define(dictionary, key, value)?;
    machine.operands.discard(2);
    Ok(())
}

pub fn def<K: Keeper>(machine: &mut Machine<K>) -> Result<(), Fault>
    ensures answer { result ≡ heard (key_defined machine.old) }
    ensures state { machine.new ≡ after (key_defined machine.old) (key_joined 1 machine.old) }
{
    let key = machine.key_at(1)?;
    let value = operand(&machine.operands, 0)?;
    let dictionary = current(&machine.dictionaries)?;
    define_in(machine, dictionary, key, value)
}

pub fn known<K: Keeper>(machine: &mut Machine<K>) -> Result<(), Fault>
    ensures answer { result ≡ heard (key_known machine.old) }
    ensures state { machine.new ≡ after (key_known machine.old) (joined_beside_dictionary machine.old) }
{
    let Dictionary(dictionary) = operand(&machine.operands, 1)?;
    let key = machine.key_at(0)?;
    let found = machine.memory.find(dictionary, key).is_some();
    machine.operands.replace(2, Object::from(found));
    Ok(())
}
