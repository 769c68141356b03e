// Dictionaries in slots: a header, then key and value pairs in the order of first definition.
ghost use Rattle.std.specs.Prelude.{◌≡◌, ◌<◌, reverse};
ghost use Rattle.objects.specs.Outcomes.{after, heard, answered};
ghost use Rattle.memory.specs.Dictionaries.{slot_in, header_in, header_object, key_place, value_place, pair_of, first_entry, dictionary_made, pair_added, defined};
ghost use Rattle.memory.specs.Keys.{holds};
ghost use Rattle.memory.specs.Memories.{with_slot};
ghost use Rattle.memory.specs.Pairs.{Looked, Made, Defining};

use crate::key::Key;
use crate::memory::Memory;
use keepers::keeper::Keeper;
use objects::fault::Fault;
use objects::object::{Header, Object, Value};

// Where a key was found: the pair's number in the dictionary that starts at a slot.
#[derive(Clone, Copy)]
pub struct Entry {
    pub dictionary: u16,
    pub pair: u16,
}

fn key_place(dictionary: u16, pair: u16) -> usize
    ensures { result ≡ key_place dictionary pair }
{
    usize::from(dictionary) + 1 + 2 * usize::from(pair)
}

fn value_place(dictionary: u16, pair: u16) -> usize
    ensures { result ≡ value_place dictionary pair }
{
    key_place(dictionary, pair) + 1
}

impl<K: Keeper> Memory<'_, K> {
    // A dictionary's header; a slot without one counts as an empty dictionary without room.
    pub fn header(&self, dictionary: u16) -> Header
        ensures { result ≡ header_in self.now dictionary }
    {
        match self.slot(usize::from(dictionary)).value {
            Value::Header(header) => header,
            _ => Header::default(),
        }
    }

    // Whether a pair of a dictionary has the key.
    fn has_key(&self, dictionary: u16, pair: u16, key: Key) -> bool
        ensures { result ≡ holds key (slot_in self.now (key_place dictionary pair)).value }
    {
        key.is_in(self.slot(key_place(dictionary, pair)))
    }

    // The pair of a dictionary that has the key.
    pub fn find(&self, dictionary: u16, key: Key) -> Option<u16>
        ensures { result ≡ pair_of self.now dictionary key }
    {
        (0..self.header(dictionary).count).find(|pair| self.has_key(dictionary, *pair, key))
    }

    // The key of an entry.
    pub fn key(&self, entry: Entry) -> Object
        ensures { result ≡ slot_in self.now (key_place entry.dictionary entry.pair) }
    {
        self.slot(key_place(entry.dictionary, entry.pair))
    }

    // The value of an entry.
    pub fn value(&self, entry: Entry) -> Object
        ensures { result ≡ slot_in self.now (value_place entry.dictionary entry.pair) }
    {
        self.slot(value_place(entry.dictionary, entry.pair))
    }

    // Looks the key up in the dictionaries, of which the last is the top: entry by entry, from the top down, to the first match.
    pub fn lookup(&self, dictionaries: &[u16], key: Key) -> Option<Entry>
        ensures value { result ≡ first_entry self.now key (reverse dictionaries.now) }
        ensures nearest { Looked self.now key dictionaries.now result }
    {
        // Kept: two nested loops left by a label at the first match, the form that docs/DECISIONS.md states: the search reads as the rule does.
        let mut found = None;
        'down: for &dictionary in dictionaries.iter().rev() {
            for pair in 0..self.header(dictionary).count {
                if self.has_key(dictionary, pair, key) {
                    found = Some(Entry { dictionary, pair });
                    break 'down;
                }
            }
        }
        found
    }

    // Takes memory for a dictionary of so many entries, and answers where it starts.
    pub fn make_dictionary(&mut self, capacity: u16) -> Result<u16, Fault>
        ensures answer { result ≡ answered (dictionary_made capacity self.old) self.old.slot_top }
        ensures state { self.new ≡ after (dictionary_made capacity self.old) self.old }
        ensures empty { Made self.old self.new capacity result }
    {
        let start = self.take_slots(1 + 2 * u32::from(capacity))?;
        self.set_header(
            start,
            Header {
                capacity,
                ..Header::default()
            },
        );
        Ok(start)
    }

    fn set_header(&mut self, dictionary: u16, header: Header)
        ensures { self.new ≡ with_slot dictionary (header_object header.count header.capacity) self.old }
    {
        self.set_slot(
            usize::from(dictionary),
            Object::literal(Value::Header(header)),
        );
    }

    // Adds a pair behind the last one, and counts it.
    fn add_pair(&mut self, dictionary: u16, key: Key, value: Object)
        requires { (header_in self.old dictionary).count < 65535 }
        ensures { self.new ≡ pair_added dictionary key value self.old }
    {
        let header = self.header(dictionary);
        self.set_slot(key_place(dictionary, header.count), key.into());
        self.set_slot(value_place(dictionary, header.count), value);
        let counted = Header {
            count: header.count + 1,
            ..header
        };
        self.set_header(dictionary, counted);
    }

    // Defines the key: in its place if the dictionary has it, else behind the last pair, or dictfull at capacity.
    pub fn define(&mut self, dictionary: u16, key: Key, value: Object) -> Result<(), Fault>
        ensures answer { result ≡ heard (defined dictionary key value self.old) }
        ensures state { self.new ≡ after (defined dictionary key value self.old) self.old }
        ensures entered { Defining self.old self.new dictionary key value result }
    {
        let header = self.header(dictionary);
        match self.find(dictionary, key) {
            Some(pair) => self.set_slot(value_place(dictionary, pair), value),
            None if header.count < header.capacity => self.add_pair(dictionary, key, value),
            None => return Err(Fault::DictFull),
        }
        Ok(())
    }
}
