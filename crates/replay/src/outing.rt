// Moves that one call makes between opening a level and going back to it.
use crate::scene::{MODIFIER, PHASE};
use keepers::excursion::Move;
use objects::object::{Object, Value};

// Kept: the two phases written out, since a constant cannot call From.
const BATTLE: Object = Object {
    value: Value::Integer(2),
    executable: false,
};

const AFTERMATH: Object = Object {
    value: Value::Integer(3),
    executable: false,
};

// The phase is put again and again, a level more is opened on the way, and two moves are refused: a put
// outside, and a level past the limit.
pub const OUTING: [Move; 7] = [
    Move::PutSlot {
        at: PHASE,
        object: BATTLE,
    },
    Move::PutSlot {
        at: PHASE,
        object: AFTERMATH,
    },
    Move::Open,
    Move::PutSlot {
        at: 9,
        object: BATTLE,
    },
    Move::PutSlot {
        at: MODIFIER,
        object: BATTLE,
    },
    Move::Open,
    Move::PutSlot {
        at: PHASE,
        object: BATTLE,
    },
];
