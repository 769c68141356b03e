// How a text goes out: all of it, or nothing.
ghost use Rattle.std.specs.Prelude.{◌≡◌, ◌+◌, ◌≤◌, [], ◌∷◌, ◌++◌, length};
ghost use Rattle.objects.specs.Outcomes.{after, heard};
ghost use Rattle.stacks.specs.Printed.{appended};
ghost use Rattle.text_operators.specs.Texts.{bytes_of};

use crate::text::Text;
use keepers::keeper::Keeper;
use memory::memory::Memory;
use objects::decimal_text::DecimalText;
use objects::fault::Fault;
use stacks::output::Output;

// Appends a text that has room: at once, but for a string, whose bytes are read from memory one by one.
fn append<K: Keeper>(output: &mut Output, memory: &Memory<K>, text: Text)
    requires { length output.old + length (bytes_of text memory.now) ≤ 4096 }
    ensures { output.new ≡ output.old ++ bytes_of text.entry memory.now }
{
    match text {
        Text::Plain(bytes) => append_slice(output, bytes),
        Text::Integer(number) => append_slice(output, DecimalText::of(number).bytes()),
        Text::String(_) => append_each(output, memory, text),
    }
}

fn append_slice(output: &mut Output, bytes: &[u8])
    requires { length output.old + length bytes.now ≤ 4096 }
    ensures { output.new ≡ output.old ++ bytes.now }
{
    let _ = output.write(bytes);
}

fn append_each<K: Keeper>(output: &mut Output, memory: &Memory<K>, text: Text)
    requires { length output.old + length (bytes_of text memory.now) ≤ 4096 }
    ensures { output.new ≡ output.old ++ bytes_of text.entry memory.now }
{
    for byte in text.bytes(memory) {
        let _ = output.write_byte(byte);
    }
}

// The text and what ends it.
// Kept: output and memory apart, and no method on the whole machine: a text may borrow its bytes from the machine's names, and then nothing that writes to the whole machine can take it.
fn write<K: Keeper>(
    output: &mut Output,
    memory: &Memory<K>,
    text: Text,
    end: &[u8],
) -> Result<(), Fault>
    ensures answer { result ≡ heard (appended (bytes_of text.entry memory.now ++ end.now) output.old) }
    ensures state { output.new ≡ after (appended (bytes_of text.entry memory.now ++ end.now) output.old) output.old }
{
    let room = output.room().checked_sub(end.len()).ok_or(Fault::IoError)?;
    if text.len() > room {
        return Err(Fault::IoError);
    }
    append(output, memory, text);
    output.write(end)
}

pub fn write_text<K: Keeper>(
    output: &mut Output,
    memory: &Memory<K>,
    text: Text,
) -> Result<(), Fault>
    ensures answer { result ≡ heard (appended (bytes_of text.entry memory.now) output.old) }
    ensures state { output.new ≡ after (appended (bytes_of text.entry memory.now) output.old) output.old }
{
    write(output, memory, text, b"")
}

// The text and a line feed.
pub fn write_line<K: Keeper>(
    output: &mut Output,
    memory: &Memory<K>,
    text: Text,
) -> Result<(), Fault>
    ensures answer { result ≡ heard (appended (bytes_of text.entry memory.now ++ 10 ∷ []) output.old) }
    ensures state { output.new ≡ after (appended (bytes_of text.entry memory.now ++ 10 ∷ []) output.old) output.old }
{
    write(output, memory, text, b"\n")
}
