// From the pieces of a text to a token.
ghost use Rattle.std.specs.Prelude.{◌≡◌, ℕ, ◌<◌, List, length, take, Ok};
ghost use Rattle.std.specs.declared.ops.ControlFlow.TheVariants.{Continue};
ghost use Rattle.names.specs.Names.{join_answer, names_joined};
ghost use Rattle.scanner.specs.Gathered.{kept};
ghost use Rattle.scanner.specs.Machine.{piece, Counted};
ghost use Rattle.scanner.specs.Sources.{to_come, whole};
ghost use Rattle.scanner.specs.Stocks.{Procedures, procedures, heard};
ghost use Rattle.scanner.specs.Tokens.{Scanned, met, named, names_met, turn, by_pieces};
ghost use Rattle.scanner.specs.Reads.{scanned, in_progress, strings_read, went_on};

use crate::counts::Counts;
use crate::element::Element;
use crate::lexer::Lexer;
use crate::procedures::Progress;
use crate::source::Source;
use crate::state::Lexeme;
use crate::stock::Stock;
use crate::token::Token;
use names::table::NameTable;
use objects::fault::Fault;
use objects::object::{Object, Span, Value};
use std::ops::ControlFlow;

#[derive(Drop)]
pub struct Buffers {
    lexer: Lexer,
    stock: Stock,
}

impl Buffers {
    pub const EMPTY: Buffers = Buffers {
        lexer: Lexer::NEW,
        stock: Stock::EMPTY,
    };

    pub fn slots(&self, count: u16) -> &[Element]
        ensures { result.now ≡ take count self.now.stock.done }
    {
        self.stock.slots(count)
    }

    pub fn bytes(&self, count: u16) -> &[u8]
        ensures { result.now ≡ take count self.now.lexer.strings }
    {
        self.lexer.bytes(count)
    }

    // One piece of a token, whose string bytes before the piece were `start`. A name joins the name table.
    fn meet(
        &mut self,
        counts: &mut Counts,
        names: &mut NameTable,
        start: u16,
        lexeme: Lexeme,
    ) -> Result<Progress, Fault>
        ensures outcome { heard self.new.stock counts.new.tally result ≡ met (piece self.old.lexer.cursor.run lexeme) start counts.old.strings names.old (procedures self.old.stock counts.old.tally) }
        ensures joined { names.new ≡ names_met (piece self.old.lexer.cursor.run lexeme) names.old }
        ensures strings { counts.new.strings ≡ counts.old.strings }
        ensures lexer { self.new.lexer ≡ self.old.lexer }
    {
        match lexeme {
            Lexeme::Ended => self.stock.end(&counts.tally),
            Lexeme::Opening => self.stock.open(&mut counts.tally),
            Lexeme::Closing => self.stock.close(&mut counts.tally),
            Lexeme::Integer(number) => self
                .stock
                .end_element(&mut counts.tally, Element::Object(number.into())),
            Lexeme::Name => self.named(counts, names, true),
            Lexeme::Literal => self.named(counts, names, false),
            Lexeme::String => {
                let len = counts.strings.saturating_sub(start);
                self.stock
                    .end_element(&mut counts.tally, Element::String(Span { start, len }))
            }
        }
    }

    fn named(
        &mut self,
        counts: &mut Counts,
        names: &mut NameTable,
        executable: bool,
    ) -> Result<Progress, Fault>
        ensures outcome { heard self.new.stock counts.new.tally result ≡ named executable (join_answer (kept self.old.lexer.cursor.run) names.old) (procedures self.old.stock counts.old.tally) }
        ensures joined { names.new ≡ names_joined (kept self.old.lexer.cursor.run) names.old }
        ensures strings { counts.new.strings ≡ counts.old.strings }
        ensures lexer { self.new.lexer ≡ self.old.lexer }
    {
        let number = names.join(self.lexer.text())?;
        let value = Value::Name(number);
        self.stock.end_element(
            &mut counts.tally,
            Element::Object(Object { value, executable }),
        )
    }

    // Reads the next piece of a token, and does with it what it asks.
    // Kept: counters, name table and source are parameters here and in the functions around, since each has an owner of its own; a struct that borrows them would be made anew for each token.
    fn advance(
        &mut self,
        counts: &mut Counts,
        names: &mut NameTable,
        source: &mut Source,
    ) -> Result<Progress, Fault>
        requires { Counted self.old.lexer counts.old.strings }
        ensures turned { (more : List (List ℕ) → Procedures → List ℕ → List ℕ → Scanned) → went_on self.new counts.new result names.new (to_come source.new) more ≡ turn names.old (in_progress self.old counts.old) (strings_read self.old counts.old) (to_come source.old) more }
        ensures counted { Counted self.new.lexer counts.new.strings }
        ensures shorter { result ≡ Ok (Continue tt) → length (to_come source.new) < length (to_come source.old) }
        ensures whole { whole source.new ≡ whole source.old }
    {
        let start = counts.strings;
        let lexeme = self.lexer.lexeme(&mut counts.strings, source)?;
        self.meet(counts, names, start, lexeme)
    }

    // Reads the next token, or none at the end of the text. No memory is taken for it.
    pub fn token(
        &mut self,
        counts: &mut Counts,
        names: &mut NameTable,
        source: &mut Source,
    ) -> Result<Option<Token>, Fault>
        ensures reading { scanned self.new result names.new (to_come source.new) ≡ by_pieces names.old (to_come source.old) }
        ensures whole { whole source.new ≡ whole source.old }
    {
        *counts = Counts::NONE;
        loop {
            if let ControlFlow::Break(element) = self.advance(counts, names, source)? {
                return Ok(element.map(|element| Token {
                    element,
                    slots: counts.tally.done,
                    bytes: counts.strings,
                }));
            }
        }
    }
}
