// The listing of a text's tokens.
use crate::kind::kind;
use crate::shown::{Excerpt, first_byte};
use names::table::NameTable;
use scanner::scratch::Scratch;
use scanner::source::Source;

pub fn list(rt: &HostRuntime, text: &[u8]) -> anyhow::Result<()> {
    let mut scratch = Scratch::NEW;
    let mut names = NameTable::new();
    let mut source = Source::new(text);
    // a token takes at least one byte, so there are no more of them than bytes
    for _ in 0..text.len() {
        let place = first_byte(text, source.taken());
        let read = scratch.next_token(&mut names, &mut source);
        let taken = source.taken();
        match read {
            Ok(Some(token)) => {
                let word = kind(token.element);
                let excerpt = Excerpt(text.get(place..taken).unwrap_or(&[]));
                println!(rt; "{place:>6}  {word:<9}  {excerpt}")?;
            }
            Ok(None) => return Ok(()),
            Err(fault) => {
                let number = fault.number();
                println!(rt; "refused {number} {fault}, {taken} bytes taken")?;
                return Ok(());
            }
        }
    }
    Ok(())
}
