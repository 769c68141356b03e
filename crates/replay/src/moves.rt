// What the story does, move by move.
ghost use Rattle.std.specs.Prelude.{◌≡◌, Some};
ghost use Rattle.replay.specs.Turns.{save_level, save_word};

use crate::phase::Phase;
use std::fmt;

#[derive(Clone, Copy)]
pub enum Save {
    Outer,
    Inner,
}

impl Save {
    // The level that the save opens, counted from 0 for the oldest.
    pub fn level(self) -> usize
        ensures { result ≡ save_level self }
    {
        match self {
            Save::Outer => 0,
            Save::Inner => 1,
        }
    }
}

impl fmt::Display for Save {
    ghost output = { λ s. Some (save_word s) };

    fn fmt<W: fmt::Write>(&self, f: &mut fmt::Formatter<W>) -> fmt::Result {
        f.pad(match self {
            Save::Outer => "outer",
            Save::Inner => "inner",
        })
    }
}

#[derive(Clone, Copy)]
pub enum Move {
    Phase(Phase),
    Modifier(i32),
    Open(Save),
    Back(Save),
}

// The phase is written under both saves, and more than once under the inner one.
pub const STORY: [Move; 9] = [
    Move::Phase(Phase::Muster),
    Move::Modifier(1),
    Move::Open(Save::Outer),
    Move::Phase(Phase::Battle),
    Move::Open(Save::Inner),
    Move::Phase(Phase::Aftermath),
    Move::Phase(Phase::Muster),
    Move::Modifier(4),
    Move::Phase(Phase::Aftermath),
];

pub const BACK_BY_BOTH: [Move; 2] = [Move::Back(Save::Inner), Move::Back(Save::Outer)];

pub const BACK_STRAIGHT: [Move; 1] = [Move::Back(Save::Outer)];
