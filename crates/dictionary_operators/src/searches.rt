// where store load: what the open dictionaries have under a key, from the top down.
ghost use Rattle.std.specs.Prelude.{◌≡◌};
ghost use Rattle.objects.specs.Outcomes.{after, heard};
ghost use Rattle.operators.specs.Keys.{key_joined};
ghost use Rattle.dictionary_operators.specs.Searches.{entry_for, store_place, key_stored, operator_object, key_operator, looked_up, key_loaded, dictionary_told, place_found};

use crate::entries::define_in;
use crate::open::current;
use keepers::keeper::Keeper;
use memory::dictionary::Entry;
use memory::key::Key;
use objects::fault::Fault;
use objects::object::{Object, Value};
use objects::operator::Operator;
use operators::machine::Machine;
use operators::reading::operand;

// Where the open dictionaries have the key: the first match from the top down.
pub fn entry_for<K: Keeper>(machine: &Machine<K>, key: Key) -> Option<Entry>
    ensures { result ≡ entry_for key machine.now }
{
    let open = machine.dictionaries.lowest_first();
    machine.memory.lookup(open, key)
}

// The dictionary that has the key, else the top one.
// Kept: a match: with `map_or_else` the proof did not close, as nothing was told of what the closure for no entry gives.
fn store_place<K: Keeper>(machine: &Machine<K>, key: Key) -> Result<u16, Fault>
    ensures { result ≡ store_place key machine.now }
{
    match entry_for(machine, key) {
        Some(entry) => Ok(entry.dictionary),
        None => current(&machine.dictionaries),
    }
}

pub fn store<K: Keeper>(machine: &mut Machine<K>) -> Result<(), Fault>
    ensures answer { result ≡ heard (key_stored machine.old) }
    ensures state { machine.new ≡ after (key_stored machine.old) (key_joined 1 machine.old) }
{
    let key = machine.key_at(1)?;
    let value = operand(&machine.operands, 0)?;
    let dictionary = store_place(machine, key)?;
    define_in(machine, dictionary, key, value)
}

// An executable operator.
fn operator_object(operator: Operator) -> Object
    ensures { result ≡ operator_object operator }
{
    Object {
        value: Value::Operator(operator),
        executable: true,
    }
}

// The operator that a key names: only a name does.
fn key_operator<K: Keeper>(machine: &Machine<K>, key: Key) -> Option<Object>
    ensures { result ≡ key_operator key machine.now }
{
    match key {
        Key::Name(name) => machine.names.operator_of(name).map(operator_object),
        _ => None,
    }
}

// What a key stands for: first the open dictionaries from the top down, then, for a name, the operators.
// Kept: a match: with `map` and `or_else` the proof did not close, as nothing was told of what the closure for no entry gives.
pub fn looked_up<K: Keeper>(machine: &Machine<K>, key: Key) -> Option<Object>
    ensures { result ≡ looked_up key machine.now }
{
    match entry_for(machine, key) {
        Some(entry) => Some(machine.memory.value(entry)),
        None => key_operator(machine, key),
    }
}

pub fn load<K: Keeper>(machine: &mut Machine<K>) -> Result<(), Fault>
    ensures answer { result ≡ heard (key_loaded machine.old) }
    ensures state { machine.new ≡ after (key_loaded machine.old) (key_joined 0 machine.old) }
{
    let key = machine.key_at(0)?;
    let value = looked_up(machine, key).ok_or(Fault::Undefined)?;
    machine.operands.replace(1, value);
    Ok(())
}

// True on top, and the dictionary in place of the key.
fn tell_dictionary<K: Keeper>(machine: &mut Machine<K>, dictionary: u16) -> Result<(), Fault>
    ensures answer { result ≡ heard (dictionary_told dictionary machine.old) }
    ensures state { machine.new ≡ after (dictionary_told dictionary machine.old) machine.old }
{
    machine.operands.push(Object::from(true))?;
    machine
        .operands
        .set(1, Object::literal(Value::Dictionary(dictionary)));
    Ok(())
}

// `where` is a word of the language.
pub fn where_defined<K: Keeper>(machine: &mut Machine<K>) -> Result<(), Fault>
    ensures answer { result ≡ heard (place_found machine.old) }
    ensures state { machine.new ≡ after (place_found machine.old) (key_joined 0 machine.old) }
{
    let key = machine.key_at(0)?;
    if let Some(entry) = entry_for(machine, key) {
        return tell_dictionary(machine, entry.dictionary);
    }
    machine.operands.replace(1, Object::from(false));
    Ok(())
}
