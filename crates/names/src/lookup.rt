// What the name table answers without being changed.
ghost use Rattle.std.specs.Prelude.{◌≡◌, ◌≤◌, length};
ghost use Rattle.std.specs.List.{slice_get};
ghost use Rattle.std.specs.Option.{option_copied};
ghost use Rattle.names.specs.Names.{place_of, operator_at, bytes_in, Apart};

use crate::bucket::bucket;
use crate::table::NameTable;
use objects::operator::Operator;

impl NameTable {
    // How many names there are: at most 1,024.
    pub fn len(&self) -> usize
        ensures value { result ≡ length self.now }
        ensures bound { result ≤ 1024 }
    {
        self.entries.len()
    }

    // The number of the name that has these bytes: there is at most one. Only the names of its bucket are compared, newest first.
    pub fn find(&self, text: &[u8]) -> Option<u16>
        ensures answer { result ≡ place_of text.now self.now }
        ensures apart { Apart self.now }
    {
        let mut link = self.heads[bucket(text)];
        while let Some(number) = link {
            let entry = self.entries[usize::from(number)];
            if entry.name(&self.bytes) == text {
                return Some(number);
            }
            link = entry.next;
        }
        None
    }

    // The bytes of the name with this number. All names together have at most 8,192.
    pub fn text_of(&self, number: u16) -> Option<&[u8]>
        ensures name { option_copied result ≡ slice_get self.now number }
        ensures fits { bytes_in self.now ≤ 8192 }
    {
        let entry = self.entries.get(usize::from(number))?;
        Some(entry.name(&self.bytes))
    }

    // The operator that the name with this number names, if there is one.
    pub fn operator_of(&self, number: u16) -> Option<Operator>
        ensures { result ≡ operator_at number self.now }
    {
        self.entries.get(usize::from(number))?.operator
    }
}
