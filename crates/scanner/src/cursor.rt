// Where reading stands between two bytes: the state, and the run as far as it is read.
ghost use Rattle.std.specs.Prelude.{◌≡◌, ℕ, List, [], ◌∷◌, Some, Ok};
ghost use Rattle.scanner.specs.Runs.{gather};
ghost use Rattle.scanner.specs.Machine.{reading, went, resumed, heard};
ghost use Rattle.scanner.specs.Gathered.{kept, so_far};
ghost use Rattle.scanner.specs.Lexemes.{name, says, plain, slashed};

use crate::run::Run;
use crate::state::{Lexeme, State, Step};
use objects::fault::Fault;
use objects::integer::{IntegerError, read_integer};

#[derive(Drop)]
pub struct Cursor {
    pub(crate) state: State,
    pub(crate) run: Run,
}

impl Cursor {
    pub const START: Cursor = Cursor {
        state: State::Between,
        run: Run::EMPTY,
    };

    // Reading goes on in another state.
    pub(crate) fn go(&mut self, state: State) -> Step
        ensures goes { (out : List ℕ) (b : ℕ) (bs : List ℕ) → went self.new out result b bs ≡ reading state (so_far self.old.run) out bs }
        ensures state { self.new.state ≡ state }
    {
        self.state = state;
        Step::On
    }

    // Reading goes on in a run of which nothing is read yet.
    pub(crate) fn begin(&mut self, state: State) -> Step
        ensures goes { (out : List ℕ) (b : ℕ) (bs : List ℕ) → went self.new out result b bs ≡ reading state (Some []) out bs }
        ensures state { self.new.state ≡ state }
    {
        self.run.clear();
        self.go(state)
    }

    // Reading goes on in the run, which has one more byte.
    pub(crate) fn gather(&mut self, byte: u8) -> Step
        ensures goes { (out : List ℕ) (b : ℕ) (bs : List ℕ) → went self.new out result b bs ≡ reading self.old.state (gather (so_far self.old.run) byte) out bs }
        ensures state { self.new.state ≡ self.old.state }
    {
        self.run.gather(byte);
        Step::On
    }

    // A run begins with this byte.
    pub(crate) fn first(&mut self, byte: u8) -> Step
        ensures goes { (out : List ℕ) (b : ℕ) (bs : List ℕ) → went self.new out result b bs ≡ reading State.Plain (Some (byte ∷ [])) out bs }
        ensures state { self.new.state ≡ State.Plain }
    {
        self.run.clear();
        self.run.gather(byte);
        self.go(State::Plain)
    }

    // The byte is a name by itself.
    pub(crate) fn alone(&mut self, byte: u8) -> Step
        ensures goes { (out : List ℕ) (b : ℕ) (bs : List ℕ) → went self.new out result b bs ≡ says (Ok (name (byte ∷ []))) out bs }
        ensures state { self.new.state ≡ self.old.state }
    {
        self.run.clear();
        self.run.gather(byte);
        Step::Take(Ok(Lexeme::Name))
    }

    pub(crate) fn plain(&self) -> Result<Lexeme, Fault>
        ensures { heard self.now.run result ≡ plain (so_far self.now.run) }
    {
        let text = self.run.whole().ok_or(Fault::LimitCheck)?;
        match read_integer(text) {
            Ok(number) => Ok(Lexeme::Integer(number)),
            Err(IntegerError::NotInteger) => Ok(Lexeme::Name),
            Err(IntegerError::OutOfRange) => Err(Fault::LimitCheck),
        }
    }

    pub(crate) fn slashed(&self) -> Result<Lexeme, Fault>
        ensures { heard self.now.run result ≡ slashed (so_far self.now.run) }
    {
        self.run
            .whole()
            .map(|_| Lexeme::Literal)
            .ok_or(Fault::LimitCheck)
    }

    // What the end of the source leaves.
    #[tactic(auto, unfolding(crate::specs::Lexemes::begun, crate::specs::Lexemes::skipped, crate::specs::Lexemes::past_comment, crate::specs::Lexemes::body, crate::specs::Lexemes::escaped, crate::specs::Runs::run_of, crate::specs::Runs::past_run, crate::specs::Runs::gathered))]
    pub(crate) fn ended(&self) -> Result<Lexeme, Fault>
        ensures { (out : List ℕ) → says (heard self.now.run result) out [] ≡ resumed self.now out [] }
    {
        match self.state {
            State::Between | State::Comment => Ok(Lexeme::Ended),
            State::Plain => self.plain(),
            State::Slashed => self.slashed(),
            State::Text { .. } | State::Escaped { .. } => Err(Fault::SyntaxError),
        }
    }

    // The bytes of the run just read: all of them, if it is not too long.
    pub(crate) fn text(&self) -> &[u8]
        ensures { result.now ≡ kept self.now.run }
    {
        self.run.text()
    }
}
