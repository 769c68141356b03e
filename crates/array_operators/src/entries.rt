// What get reads of a dictionary.
ghost use Rattle.std.specs.Prelude.{◌≡◌};
ghost use Rattle.array_operators.specs.Entries.{value_of};

use keepers::keeper::Keeper;
use memory::dictionary::Entry;
use memory::key::Key;
use memory::memory::Memory;
use objects::fault::Fault;
use objects::object::Object;

// The value of a key in a dictionary.
pub fn value_of<K: Keeper>(memory: &Memory<K>, dictionary: u16, key: Key) -> Result<Object, Fault>
    ensures { result ≡ value_of dictionary key memory.now }
{
    let pair = memory.find(dictionary, key).ok_or(Fault::Undefined)?;
    Ok(memory.value(Entry { dictionary, pair }))
}
