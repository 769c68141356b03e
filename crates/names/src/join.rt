// How a name joins the table.
ghost use Rattle.std.specs.Prelude.{◌≡◌, ℕ, ◌+◌, ◌≤◌, true, [], ◌∷◌, ◌++◌, length, None, Ok, Err};
ghost use Rattle.std.proofs.Math.Seq.{paste};
ghost use Rattle.names.specs.Names as of;
ghost use Rattle.names.specs.Names.{place_of, new_answer, new_names, join_answer, names_joined, Lasts, Apart};

use crate::bucket::bucket;
use crate::entry::Entry;
use crate::table::NameTable;
use arrayvec::ArrayVec;
use objects::fault::Fault;
use objects::object::Span;
use objects::operator::Operator;
use objects::store::store;

const MOST_NAMES: usize = 1024;

const MOST_BYTES: usize = 8192;

const LONGEST_NAME: usize = 128;

impl NameTable {
    pub fn new() -> NameTable
        ensures { result ≡ [] }
    {
        NameTable {
            bytes: [0; 8192],
            used: 0,
            entries: ArrayVec::new(),
            heads: [None; 1024],
        }
    }

    // The number of the name with these bytes. A new name is added if it has room.
    // The number lasts, whatever joins later. A refusal changes nothing, and no two names are the same.
    pub fn join(&mut self, text: &[u8]) -> Result<u16, Fault>
        ensures answer { result ≡ join_answer text.now self.old }
        ensures after { self.new ≡ names_joined text.now self.old }
        ensures lasts { (n : ℕ) → result ≡ Ok n → Lasts text.now n self.new }
        ensures refused { (f : Fault) → result ≡ Err f → self.new ≡ self.old }
        ensures apart { Apart self.new }
    {
        match self.find(text) {
            Some(number) => Ok(number),
            None => self.join_new(text),
        }
    }

    fn join_new(&mut self, text: &[u8]) -> Result<u16, Fault>
        requires { place_of text.now self.old ≡ None }
        ensures answer { result ≡ new_answer text.now self.old }
        ensures after { self.new ≡ new_names text.now self.old }
    {
        if self.has_room(text) {
            Ok(self.add(text))
        } else {
            Err(Fault::LimitCheck)
        }
    }

    fn has_room(&self, text: &[u8]) -> bool
        ensures { result ≡ of.has_room text.now self.now }
    {
        self.entries.len() < MOST_NAMES
            && text.len() <= LONGEST_NAME
            && self.used + text.len() <= MOST_BYTES
    }

    // Adds a name that the table does not have, and for which there is room. Answers its number.
    fn add(&mut self, text: &[u8]) -> u16
        requires new { place_of text.now self.old ≡ None }
        requires room { of.has_room text.now self.old ≡ true }
        ensures number { result ≡ length self.old }
        ensures after { self.new ≡ self.old ++ text.now ∷ [] }
    {
        let number = self.entries.len() as u16;
        let start = self.used;
        let bucket = bucket(text);
        let entry = Entry {
            place: Span {
                start: start as u16,
                len: text.len() as u16,
            },
            operator: Operator::named(text),
            next: self.heads[bucket],
        };
        copy_in(&mut self.bytes, start, text);
        self.used = start + text.len();
        self.entries.push(entry);
        self.heads[bucket] = Some(number);
        number
    }
}

// Copies a text into the places from `at` on, byte by byte.
// Kept: the one generic `store` copies names' bytes, as it copies objects into a keeper's second memory: one copying rule, proved once.
fn copy_in(places: &mut [u8], at: usize, text: &[u8])
    requires { at + length text.now ≤ length places.old }
    ensures { places.new ≡ paste places.old at text.now (length text.now) }
{
    for (i, byte) in text.iter().enumerate() {
        let _ = store(places, at + i, *byte);
    }
}
