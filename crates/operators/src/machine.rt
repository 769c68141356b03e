// The machine: memory, names, stacks and output.
use crate::frame::Frame;
use keepers::keeper::Keeper;
use memory::memory::Memory;
use names::table::NameTable;
use stacks::operands::Operands;
use stacks::output::Output;
use stacks::stack::Stack;
use std::marker::Model;

// where each open dictionary starts
pub type Dictionaries = Stack<u16, 20>;

// how many frames may be under way at once
pub const MOST_FRAMES: usize = 250;

pub type Frames = Stack<Frame, MOST_FRAMES>;

#[derive(Drop)]
pub struct Machine<'k, K: Keeper> {
    pub memory: Memory<'k, K>,
    pub names: NameTable,
    pub operands: Operands,
    pub dictionaries: Dictionaries,
    pub frames: Frames,
    pub output: Output,
}

// Clauses see what the parts stand for.
impl<'k, K: Keeper> Model for Machine<'k, K> {
    ghost use Rattle.operators.specs.States.{State};

    ghost Value = { State };

    ghost view = { λ m. record {
      memory = m.memory;
      names = m.names;
      operands = m.operands;
      dictionaries = m.dictionaries;
      frames = m.frames;
      output = m.output;
    } };
}
