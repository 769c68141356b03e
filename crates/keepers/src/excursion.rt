// Opening a level, playing on, and going back to it: what comes back, over any keeper.
ghost use Rattle.std.specs.Prelude.{◌≡◌};
ghost use Rattle.keepers.specs.Excursions.{moved, played, ComesBack};

use crate::keeper::Keeper;
use objects::fault::Fault;
use objects::object::Object;

// What may happen between opening a level and going back to it. A refused move changes nothing, and play goes on.
#[derive(Clone, Copy)]
pub enum Move {
    PutSlot { at: usize, object: Object },
    PutByte { at: usize, byte: u8 },
    Open,
    // to a level opened on the way; one that was open before is left alone
    Back { to: usize },
}

// Makes one move of an excursion from a level.
// Kept: moves are values and no closures, since the law below speaks of every list of them.
pub fn make_move<K: Keeper>(keeper: &mut K, from: usize, step: Move)
    ensures { K.kept keeper.new ≡ moved from step (K.kept keeper.old) }
{
    let _ = match step {
        Move::PutSlot { at, object } => keeper.put_slot(at, object),
        Move::PutByte { at, byte } => keeper.put_byte(at, byte),
        Move::Open => keeper.open_level(),
        Move::Back { to } if from < to => keeper.back_to(to),
        Move::Back { .. } => Ok(()),
    };
}

// Makes all the moves in their order.
pub fn play<K: Keeper>(keeper: &mut K, from: usize, moves: &[Move])
    ensures { K.kept keeper.new ≡ played from moves.now (K.kept keeper.old) }
{
    for step in moves {
        make_move(keeper, from, *step);
    }
}

// Opens a level, plays, and goes back to the level. Whatever the moves are, the slots and the levels are then as right
// before the level was opened, and each byte is as last put. It is refused exactly where no level can be opened.
pub fn there_and_back<K: Keeper>(keeper: &mut K, moves: &[Move]) -> Result<(), Fault>
    ensures { ComesBack moves.now (K.kept keeper.old) (K.kept keeper.new) result }
{
    let level = keeper.open_levels();
    keeper.open_level()?;
    play(keeper, level, moves);
    keeper.back_to(level)
}
