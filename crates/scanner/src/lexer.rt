// From bytes to the pieces of a text: names, integers, strings and braces.
ghost use Rattle.std.specs.Prelude.{◌≡◌, ℕ, ◌+◌, ◌≤◌, List, [], ◌∷◌, ◌++◌, take};
ghost use Rattle.scanner.specs.Machine.{reading, went, resumed, string_bytes, Counted, heard, open_brackets};
ghost use Rattle.scanner.specs.Gathered.{kept, so_far};
ghost use Rattle.scanner.specs.Sources.{to_come, whole};
ghost use Rattle.scanner.specs.Lexemes.{says, room, lexeme, escape};

use crate::cursor::Cursor;
use crate::run::ends_run;
use crate::source::{Ending, Source};
use crate::state::{Lexeme, State, Step};
use objects::fault::Fault;
use objects::front::front;

// The string bytes that one outermost token may have.
const MOST_BYTES: u16 = 1024;

#[derive(Drop)]
pub struct Lexer {
    cursor: Cursor,
    // Kept: how many of these bytes are in use stands in the counters, which the guard puts back.
    strings: [u8; 1024],
}

// In a string, with so many brackets open inside it, and perhaps just after byte 13.
fn text(brackets: u16, returned: bool) -> State
    ensures { result ≡ State.Text brackets returned }
{
    State::Text {
        open: brackets,
        returned,
    }
}

// The byte that stands after a backslash for another, or itself.
fn escape_of(byte: u8) -> u8
    ensures { result ≡ escape byte }
{
    match byte {
        b'n' => 10,
        b'r' => 13,
        b't' => 9,
        _ => byte,
    }
}

impl Lexer {
    pub const NEW: Lexer = Lexer {
        cursor: Cursor::START,
        strings: [0; 1024],
    };

    // The first so many string bytes of the token.
    pub fn bytes(&self, count: u16) -> &[u8]
        ensures { result.now ≡ take count self.now.strings }
    {
        front(&self.strings, usize::from(count))
    }

    // Keeps a byte of a string, if the token has not as many as it may have, and goes on in another state.
    #[tactic(auto, using(crate::proofs::Steps::one_more))]
    fn keep(&mut self, used: &mut u16, state: State, byte: u8) -> Step
        ensures goes { (b : ℕ) (bs : List ℕ) → went self.new.cursor (string_bytes self.new used.new) result b bs ≡ room (string_bytes self.old used.old) (reading state (so_far self.old.cursor.run) (string_bytes self.old used.old ++ byte ∷ []) bs) bs }
        ensures state { self.new.cursor.state ≡ state }
        ensures grows { result ≡ Step.On → used.new ≡ used.old + 1 }
        ensures counted { Counted self.old used.old → Counted self.new used.new }
    {
        self.cursor.state = state;
        if *used < MOST_BYTES {
            self.strings[usize::from(*used)] = byte;
            *used += 1;
            Step::On
        } else {
            Step::Take(Err(Fault::LimitCheck))
        }
    }

    // What the byte does where the scanner is.
    #[tactic(auto, using(crate::proofs::Steps::at_a_byte))]
    fn step(&mut self, used: &mut u16, byte: u8) -> Step
        requires { open_brackets self.old.cursor.state ≤ used.old }
        ensures goes { (bs : List ℕ) → went self.new.cursor (string_bytes self.new used.new) result byte bs ≡ resumed self.old.cursor (string_bytes self.old used.old) (byte ∷ bs) }
        ensures within { result ≡ Step.On → open_brackets self.new.cursor.state ≤ used.new }
        ensures counted { Counted self.old used.old → Counted self.new used.new }
    {
        match (self.cursor.state, byte) {
            (State::Between, 0 | 9 | 10 | 12 | 13 | b' ') => Step::On,
            (State::Between, b'%') => self.cursor.go(State::Comment),
            (State::Between, b'(') => self.cursor.go(text(0, false)),
            (State::Between, b'/') => self.cursor.begin(State::Slashed),
            (State::Between, b'[' | b']') => self.cursor.alone(byte),
            (State::Between, b'{') => Step::Take(Ok(Lexeme::Opening)),
            (State::Between, b'}') => Step::Take(Ok(Lexeme::Closing)),
            (State::Between, b')' | b'<' | b'>') => Step::Take(Err(Fault::SyntaxError)),
            (State::Between, _) => self.cursor.first(byte),
            (State::Comment, 10 | 12 | 13) => self.cursor.go(State::Between),
            (State::Comment, _) => Step::On,
            (State::Plain, _) if ends_run(byte) => Step::Leave(self.cursor.plain()),
            (State::Plain, _) => self.cursor.gather(byte),
            (State::Slashed, _) if ends_run(byte) => Step::Leave(self.cursor.slashed()),
            (State::Slashed, _) => self.cursor.gather(byte),
            (
                State::Text {
                    open,
                    returned: true,
                },
                10,
            ) => self.cursor.go(text(open, false)),
            (State::Text { open: 0, .. }, b')') => Step::Take(Ok(Lexeme::String)),
            (State::Text { open, .. }, b')') => self.keep(used, text(open - 1, false), byte),
            // each open bracket is a byte kept, so there are never too many for the sum
            (State::Text { open, .. }, b'(') => self.keep(
                used,
                text(open.saturating_add(1), false),
                byte,
            ),
            (State::Text { open, .. }, b'\\') => self.cursor.go(State::Escaped { open }),
            (State::Text { open, .. }, 13) => self.keep(used, text(open, true), 10),
            (State::Text { open, .. }, _) => self.keep(used, text(open, false), byte),
            (State::Escaped { open }, 10) => self.cursor.go(text(open, false)),
            (State::Escaped { open }, 13) => self.cursor.go(text(open, true)),
            (State::Escaped { open }, _) => self.keep(used, text(open, false), escape_of(byte)),
        }
    }

    // The bytes of the run just read: all of them, if it is not too long.
    pub fn text(&self) -> &[u8]
        ensures { result.now ≡ kept self.now.cursor.run }
    {
        self.cursor.text()
    }

    // Reads the next piece of the text. The bytes of a string go after those that the token has so far.
    // Kept: that the count tells the bytes is a clause and not a fact of a type, since the guard lends the count apart from the bytes.
    pub fn lexeme(&mut self, used: &mut u16, source: &mut Source) -> Result<Lexeme, Fault>
        ensures reading { says (heard self.new.cursor.run result) (string_bytes self.new used.new) (to_come source.new) ≡ lexeme (string_bytes self.old used.old) (to_come source.old) }
        ensures counted { Counted self.old used.old → Counted self.new used.new }
        ensures whole { whole source.new ≡ whole source.old }
    {
        self.cursor.state = State::Between;
        while let Some(byte) = source.look() {
            match self.step(used, byte) {
                Step::On => {
                    let _ = source.next();
                }
                Step::Take(answer) => {
                    let _ = source.next();
                    return answer;
                }
                Step::Leave(answer) => return answer,
            }
        }
        match source.ending() {
            Ending::Ended => self.cursor.ended(),
        }
    }
}
