// Runs the scanner over a table of texts, and prints what it reads: the bytes taken so far, and the token or the refusal.
#![tactic(auto)]

use crate::texts::{EDGES, TEXTS};
use names::table::NameTable;
use scanner::scratch::Scratch;
use scanner::source::Source;
use std::{fmt, io};

mod texts;

// At most so many tokens of a text are printed.
const MOST_TOKENS: u32 = 12;

// At most so many slots or bytes of a token are printed.
const MOST_PRINTED: usize = 9;

fn read_all(rt: &HostRuntime, label: &str, text: &[u8]) -> io::Result<()> {
    println!(rt; "{label}")?;
    let mut scratch = Scratch::NEW;
    let mut names = NameTable::new();
    let mut source = Source::new(text);
    for _ in 0..MOST_TOKENS {
        let read = scratch.next_token(&mut names, &mut source);
        let taken = source.taken();
        match read {
            Err(fault) => println!(rt; "  {taken} {fault:?}")?,
            Ok(None) => {
                println!(rt; "  {taken} end")?;
                break;
            }
            Ok(Some(token)) => {
                let element = token.element;
                println!(rt; "  {taken} {element:?}")?;
                needs(rt, "slots", scratch.slots(&token))?;
                needs(rt, "bytes", scratch.bytes(&token))?;
            }
        }
    }
    Ok(())
}

// How much memory of one kind a token needs, with what goes into it where it is little.
fn needs<T: fmt::Debug>(rt: &HostRuntime, word: &str, items: &[T]) -> io::Result<()> {
    let count = items.len();
    if count > MOST_PRINTED {
        println!(rt; "    {count} {word}")?;
    } else if count > 0 {
        println!(rt; "    {count} {word} {items:?}")?;
    }
    Ok(())
}

fn main(rt: HostRuntime) -> io::Result<()> {
    for (label, text) in TEXTS {
        read_all(&rt, label, text)?;
    }
    for (label, front, part, count, end) in EDGES {
        let mut text = Vec::new(rt.alloc());
        text.extend_from_slice(front)?;
        text.extend_from_slice(&part.repeat(rt.alloc(), count)?)?;
        text.extend_from_slice(end)?;
        read_all(&rt, label, &text)?;
    }
    Ok(())
}
