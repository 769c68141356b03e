// [
ghost use Rattle.std.specs.Prelude.{◌≡◌};
ghost use Rattle.objects.specs.Outcomes.{after, heard};
ghost use Rattle.array_operators.specs.Marks.{marked};

use keepers::keeper::Keeper;
use objects::fault::Fault;
use operators::machine::Machine;
use operators::stack::mark;

pub fn open<K: Keeper>(machine: &mut Machine<K>) -> Result<(), Fault>
    ensures answer { result ≡ heard (marked machine.old) }
    ensures state { machine.new ≡ after (marked machine.old) machine.old }
{
    mark(&mut machine.operands)
}
