// The text of an object.
ghost use Rattle.std.specs.Prelude.{◌≡◌};
ghost use Rattle.memory.specs.Memories.{InUse};
ghost use Rattle.text_operators.specs.ObjectTexts.{name_text, truth_text, no_text, text_among};
ghost use Rattle.text_operators.specs.Texts.{bytes_of};

use crate::text::Text;
use names::table::NameTable;
use objects::object::Value;

// The letters of a name. A number that no name has counts as an empty name.
fn name_text(names: &NameTable, number: u16) -> &[u8]
    ensures { result.now ≡ name_text number names.now }
{
    names.text_of(number).unwrap_or(&[])
}

fn truth_text(flag: bool) -> &'static [u8]
    ensures { result.now ≡ truth_text flag }
{
    if flag { b"true" } else { b"false" }
}

// What stands for an object without a text of its own.
fn no_text() -> &'static [u8]
    ensures { result.now ≡ no_text }
{
    b"--nostringval--"
}

// The text of an object: an integer's decimal text, true or false, a string's bytes, a name's letters whatever its flag.
pub fn object_text<'a>(names: &'a NameTable, value: Value) -> Text<'a>
    ensures { (m : InUse) → bytes_of result m ≡ text_among value names.now m }
{
    match value {
        Value::Integer(number) => Text::Integer(number),
        Value::Boolean(flag) => Text::Plain(truth_text(flag)),
        Value::Name(number) => Text::Plain(name_text(names, number)),
        Value::String(span) => Text::String(span),
        _ => Text::Plain(no_text()),
    }
}
