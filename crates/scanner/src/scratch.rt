// The scanner's scratch: fixed memory for the token that is being read.
ghost use Rattle.std.specs.Prelude.{◌≡◌, take};
ghost use Rattle.scanner.specs.Grammar.{token};
ghost use Rattle.scanner.specs.Laws.{NamesJoin, Taken, BlanksVanish, StandsAlone, DecimalsReturn};
ghost use Rattle.scanner.specs.Reads.{scanned};
ghost use Rattle.scanner.specs.Sound.{Sound};
ghost use Rattle.scanner.specs.Sources.{to_come, whole};

use crate::buffers::Buffers;
use crate::counts::Counts;
use crate::element::Element;
use crate::guard::Guard;
use crate::source::Source;
use crate::token::Token;
use names::table::NameTable;
use objects::fault::Fault;

#[derive(Drop)]
pub struct Scratch {
    counts: Counts,
    buffers: Buffers,
}

impl Scratch {
    pub const NEW: Scratch = Scratch {
        counts: Counts::NONE,
        buffers: Buffers::EMPTY,
    };

    // Reads the next token of the source, or none at its end. Names join the name table as they are read.
    // On every way out the counters stand as before.
    pub fn next_token(
        &mut self,
        names: &mut NameTable,
        source: &mut Source,
    ) -> Result<Option<Token>, Fault>
        ensures reading { scanned self.new.buffers result names.new (to_come source.new) ≡ token names.old (to_come source.old) }
        ensures counters { self.new.counts ≡ self.old.counts }
        ensures joined { NamesJoin (to_come source.old) names.old names.new }
        ensures taken { Taken (to_come source.old) (to_come source.new) }
        ensures whole { whole source.new ≡ whole source.old }
        ensures sound { Sound (scanned self.new.buffers result names.new (to_come source.new)) }
        ensures blanks { BlanksVanish }
        ensures alone { StandsAlone }
        ensures decimals { DecimalsReturn }
    {
        let before = self.counts;
        let guard = Guard {
            counts: &mut self.counts,
            before,
        };
        self.buffers.token(guard.counts, names, source)
    }

    // What is to be written into the slots that a token takes, in this order. Places of strings and procedures count from the token's own first byte and slot.
    pub fn slots(&self, token: &Token) -> &[Element]
        ensures { result.now ≡ take token.now.slots self.now.buffers.stock.done }
    {
        self.buffers.slots(token.slots)
    }

    // What is to be written into the bytes that a token takes.
    pub fn bytes(&self, token: &Token) -> &[u8]
        ensures { result.now ≡ take token.now.bytes self.now.buffers.lexer.strings }
    {
        self.buffers.bytes(token.bytes)
    }
}
