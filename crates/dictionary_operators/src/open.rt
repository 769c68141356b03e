// currentdict countdictstack userdict begin end: the open dictionaries.
ghost use Rattle.std.specs.Prelude.{◌≡◌};
ghost use Rattle.objects.specs.Outcomes.{after, heard};
ghost use Rattle.dictionary_operators.specs.Open.{current, bottom, current_pushed, user_pushed, open_counted, begun, ended};

use keepers::keeper::Keeper;
use objects::fault::Fault;
use objects::object::{Object, Value};
use operators::machine::{Dictionaries, Machine};
use operators::operand::Dictionary;
use operators::reading::operand;

// The top dictionary. (A machine that is set up has always one open.)
pub fn current(dictionaries: &Dictionaries) -> Result<u16, Fault>
    ensures { result ≡ current dictionaries.now }
{
    dictionaries.peek(0).ok_or(Fault::DictStackUnderflow)
}

// The lowest dictionary: userdict.
fn bottom(dictionaries: &Dictionaries) -> Result<u16, Fault>
    ensures { result ≡ bottom dictionaries.now }
{
    dictionaries
        .lowest_first()
        .first()
        .copied()
        .ok_or(Fault::DictStackUnderflow)
}

pub fn currentdict<K: Keeper>(machine: &mut Machine<K>) -> Result<(), Fault>
    ensures answer { result ≡ heard (current_pushed machine.old) }
    ensures state { machine.new ≡ after (current_pushed machine.old) machine.old }
{
    let dictionary = current(&machine.dictionaries)?;
    machine.push(Object::literal(Value::Dictionary(dictionary)))
}

pub fn userdict<K: Keeper>(machine: &mut Machine<K>) -> Result<(), Fault>
    ensures answer { result ≡ heard (user_pushed machine.old) }
    ensures state { machine.new ≡ after (user_pushed machine.old) machine.old }
{
    let dictionary = bottom(&machine.dictionaries)?;
    machine.push(Object::literal(Value::Dictionary(dictionary)))
}

pub fn countdictstack<K: Keeper>(machine: &mut Machine<K>) -> Result<(), Fault>
    ensures answer { result ≡ heard (open_counted machine.old) }
    ensures state { machine.new ≡ after (open_counted machine.old) machine.old }
{
    let depth = machine.dictionaries.depth();
    machine.push(Object::from(depth as i32))
}

pub fn begin<K: Keeper>(machine: &mut Machine<K>) -> Result<(), Fault>
    ensures answer { result ≡ heard (begun machine.old) }
    ensures state { machine.new ≡ after (begun machine.old) machine.old }
{
    let Dictionary(dictionary) = operand(&machine.operands, 0)?;
    machine
        .dictionaries
        .push(dictionary)
        .map_err(|_| Fault::DictStackOverflow)?;
    machine.operands.discard(1);
    Ok(())
}

pub fn end<K: Keeper>(machine: &mut Machine<K>) -> Result<(), Fault>
    ensures answer { result ≡ heard (ended machine.old) }
    ensures state { machine.new ≡ after (ended machine.old) machine.old }
{
    if machine.dictionaries.depth() <= 1 {
        return Err(Fault::DictStackUnderflow);
    }
    machine.dictionaries.pop();
    Ok(())
}
