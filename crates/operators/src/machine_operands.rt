// How operators give an operand, and take keys: a string becomes a name, and so joins the names.
ghost use Rattle.std.specs.Prelude.{◌≡◌};
ghost use Rattle.objects.specs.Outcomes.{after, heard};
ghost use Rattle.operators.specs.Keys.{key_of, object_joined, key_at, key_joined};
ghost use Rattle.operators.specs.States.{with_operand};
ghost use Rattle.operators.specs.Texts.{string_name, string_joined};

use crate::keys;
use crate::machine::Machine;
use keepers::keeper::Keeper;
use memory::key::Key;
use objects::fault::Fault;
use objects::object::{Object, Span};

impl<'k, K: Keeper> Machine<'k, K> {
    // One more operand.
    pub fn push(&mut self, object: Object) -> Result<(), Fault>
        ensures answer { result ≡ heard (with_operand object self.old) }
        ensures state { self.new ≡ after (with_operand object self.old) self.old }
    {
        self.operands.push(object)
    }

    // The number of the name with the bytes of a string, which joins the names if it is new.
    #[tactic(auto, using(crate::proofs::Lifted::string_lifted))]
    pub fn string_name(&mut self, string: Span) -> Result<u16, Fault>
        ensures answer { result ≡ string_name string self.old }
        ensures state { self.new ≡ string_joined string self.old }
    {
        keys::string_name(&mut self.names, &self.memory, string)
    }

    // The key that an object is.
    #[tactic(auto, using(crate::proofs::Lifted::object_lifted))]
    pub fn key_of(&mut self, object: Object) -> Result<Key, Fault>
        ensures answer { result ≡ key_of object self.old }
        ensures state { self.new ≡ object_joined object self.old }
    {
        keys::key_of(&mut self.names, &self.memory, object)
    }

    // The n-th operand from the top, as a key.
    #[tactic(auto, using(crate::proofs::Lifted::key_lifted))]
    pub fn key_at(&mut self, n: usize) -> Result<Key, Fault>
        ensures answer { result ≡ key_at n self.old }
        ensures state { self.new ≡ key_joined n self.old }
    {
        keys::key_at(&mut self.names, &self.memory, &self.operands, n)
    }
}
