// print = : what finds no room in the output is not written at all, and its operand stays.
ghost use Rattle.std.specs.Prelude.{◌≡◌};
ghost use Rattle.objects.specs.Outcomes.{after, heard};
ghost use Rattle.text_operators.specs.Writing.{string_out, line_out, Grown};

use crate::object_text::object_text;
use crate::text::Text;
use crate::text_output::{write_line, write_text};
use keepers::keeper::Keeper;
use objects::fault::Fault;
use objects::object::Object;
use operators::machine::Machine;
use operators::operand::StringSpan;
use operators::reading::operand;

pub fn print<K: Keeper>(machine: &mut Machine<K>) -> Result<(), Fault>
    ensures answer { result ≡ heard (string_out machine.old) }
    ensures state { machine.new ≡ after (string_out machine.old) machine.old }
    ensures grows { Grown machine.old machine.new }
{
    let string: StringSpan = operand(&machine.operands, 0)?;
    write_text(&mut machine.output, &machine.memory, Text::from(string))?;
    machine.operands.discard(1);
    Ok(())
}

// `=`: the text of any object, on a line of its own.
pub fn print_line<K: Keeper>(machine: &mut Machine<K>) -> Result<(), Fault>
    ensures answer { result ≡ heard (line_out machine.old) }
    ensures state { machine.new ≡ after (line_out machine.old) machine.old }
    ensures grows { Grown machine.old machine.new }
{
    let object: Object = operand(&machine.operands, 0)?;
    let text = object_text(&machine.names, object.value);
    write_line(&mut machine.output, &machine.memory, text)?;
    machine.operands.discard(1);
    Ok(())
}
