// Where the scanner is inside a text, what it finds there, and what it does with a byte.
use objects::fault::Fault;

#[derive(Clone, Copy)]
pub enum State {
    Between,
    Comment,
    // in a run of regular characters, or in one after a slash
    Plain,
    Slashed,
    // in a string, with so many brackets open inside it; after byte 13, a byte 10 is of the same line end
    Text { open: u16, returned: bool },
    // in a string, after a backslash
    Escaped { open: u16 },
}

// A piece of a text. The bytes of a name are those of the run just read.
#[derive(Clone, Copy)]
pub enum Lexeme {
    // no piece is left
    Ended,
    Opening,
    Closing,
    Integer(i32),
    Name,
    Literal,
    String,
}

// What a byte leads to: reading goes on behind it, or it comes to an end behind the byte or before it.
// Kept: the library has no type with two ways to end beside one to go on.
#[derive(Clone, Copy)]
pub enum Step {
    On,
    Take(Result<Lexeme, Fault>),
    Leave(Result<Lexeme, Fault>),
}
