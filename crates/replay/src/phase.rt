// The phases, as the story names them and as slots hold them: integers.
ghost use Rattle.std.specs.Prelude.{◌≡◌, Ok, Some};
ghost use Rattle.replay.specs.Turns.{phase_object, phase_word};

use objects::object::{Object, Value};
use std::fmt;

#[derive(Clone, Copy)]
pub enum Phase {
    Muster,
    Battle,
    Aftermath,
}

// An object that stands for no phase.
#[derive(Clone, Copy, Debug)]
pub struct NoPhase;

impl fmt::Display for Phase {
    ghost output = { λ p. Some (phase_word p) };

    fn fmt<W: fmt::Write>(&self, f: &mut fmt::Formatter<W>) -> fmt::Result {
        f.pad(match self {
            Phase::Muster => "muster",
            Phase::Battle => "battle",
            Phase::Aftermath => "aftermath",
        })
    }
}

impl From<Phase> for Object {
    ghost from_gives = { λ p o. o ≡ phase_object p };

    fn from(phase: Phase) -> Object {
        Object::from(match phase {
            Phase::Muster => 1,
            Phase::Battle => 2,
            Phase::Aftermath => 3,
        })
    }
}

impl TryFrom<Object> for Phase {
    type Error = NoPhase;

    ghost use Rattle.replay.specs.declared.phase.Phase.{Phase};

    ghost try_from_gives = { λ o r. (p : Phase) → (o ≡ phase_object p → r ≡ Ok p) × (r ≡ Ok p → o.value ≡ (phase_object p).value) };

    fn try_from(object: Object) -> Result<Phase, NoPhase> {
        match object.value {
            Value::Integer(1) => Ok(Phase::Muster),
            Value::Integer(2) => Ok(Phase::Battle),
            Value::Integer(3) => Ok(Phase::Aftermath),
            _ => Err(NoPhase),
        }
    }
}
