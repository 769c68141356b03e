// Lists the tokens of a rule file on standard input, one a line: its first byte's place, its kind and its text. Where the file
// breaks a rule, the last line says the refusal's number and name and how many bytes had been taken.
#![tactic(auto)]

use crate::listing::list;
use std::io::Read;

mod kind;
mod listing;
mod shown;

// A rule file has at most so many bytes; what follows is not listed.
const MOST_BYTES: usize = 16384;

// What standard input holds, up to the bound.
fn read_input(rt: &HostRuntime) -> anyhow::Result<Vec<u8>> {
    let mut text = Vec::new(rt.alloc());
    rt.stdin().read_to_end(&mut text)?;
    text.truncate(MOST_BYTES);
    Ok(text)
}

fn main(rt: HostRuntime) -> anyhow::Result<()> {
    let text = read_input(&rt)?;
    list(&rt, text.as_slice())
}
